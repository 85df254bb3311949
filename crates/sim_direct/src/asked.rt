// What a server is asked directly (propose and confirm_leadership of simulation.rs): a stopped one does not lead, and names nobody.
ghost use Rattle.std.specs.Prelude.{◌≡◌};
ghost use Rattle.model.specs.Calls.{propose, confirm_leadership};
ghost use Rattle.state.specs.Changes.{Inside, Gated, Changes};
ghost use Rattle.state.specs.Call.{call};
ghost use Rattle.answers.specs.Answers.{opened_no, asked_yes};
ghost use Rattle.sim_direct.specs.Asked.{no_proposal, ProposalPlanned, proposal_open, ConfirmPlanned, confirm_open};

use crate::{DirectAsked, direct_asked};
use answers::{OpenedAnswer, opened};
use protocol::RequestId;
use state::{Capacity, Gate, OpenInput};
use units::NodeId;

// ---- propose

// What a direct proposal will do, or the refusal.
#[derive(Clone, Copy)]
pub struct ProposalAsked {
    pub code: u64,
    // The place of the server, and whether it runs.
    pub slot: u64,
    pub running: bool,
    // The sequence number that is used, and the next.
    pub seq: u64,
    pub next: u64,
}

// A refused proposal.
fn no_proposal(code: u64) -> ProposalAsked
    ensures { result ≡ no_proposal code }
{
    ProposalAsked {
        code,
        slot: 0,
        running: false,
        seq: 0,
        next: 0,
    }
}

// What a direct proposal will do: a sequence number is used whether or not the server runs, so question 10 is of that number.
fn propose_plan(area: &[u8], f: Capacity, server: u64) -> ProposalAsked
    requires { Inside area.now f }
    ensures { ProposalPlanned area.now f server result }
{
    let asked = direct_asked(area, f, server);
    let code = asked.code;
    if 0 < code {
        return no_proposal(code);
    }
    let run = state_header::run_of(area, f);
    let seq = run.direct_seq;
    if 18446744073709551615 <= seq {
        return no_proposal(10);
    }
    ProposalAsked {
        code: 0,
        slot: asked.slot,
        running: asked.running,
        seq,
        next: seq + 1,
    }
}

// The proposal's input opens, and its number is used.
fn open_proposal(area: &mut [u8], f: Capacity, slot: u64, next: u64)
    requires { Inside area.old f }
    ensures { Changes area.old area.new f (proposal_open slot next) }
{
    let input = OpenInput {
        phase: 1,
        slot,
        input: 3,
        client: 0,
        seq: 0,
        attempt: 0,
        verdict: 0,
        leader: 0,
        owed: 0,
        next: 0,
    };
    state_header::set_direct_seq(area, f, next);
    state_header::set_open(area, f, input);
}

// A direct proposal; the host builds the command.
pub fn propose_in(area: &mut [u8], g: Gate, server: u64) -> OpenedAnswer
    requires { Gated area.old g }
    ensures { (result, area.new) ≡ call opened_no asked_yes area.old (propose server) }
{
    let refusal = g.refusal;
    let f = g.capacity;
    if 0 < refusal {
        return opened::opened_no(refusal);
    }
    let p = propose_plan(area, f, server);
    let code = p.code;
    let running = p.running;
    if 0 < code {
        return opened::opened_no(code);
    }
    if !running {
        state_header::set_direct_seq(area, f, p.next);
        return opened::opened(answers::no_input());
    }
    open_proposal(area, f, p.slot, p.next);
    opened::opened(opened::proposal_input(NodeId(server), client::DIRECT as u64, p.seq))
}

// ---- confirm_leadership

// What a request to confirm leadership will do, or the refusal.
fn confirm_plan(area: &[u8], f: Capacity, server: u64, request: u64) -> DirectAsked
    requires { Inside area.now f }
    ensures { ConfirmPlanned area.now f server request result }
{
    direct_asked(area, f, server)
}

// The confirmation's input opens.
fn open_confirmation(area: &mut [u8], f: Capacity, slot: u64)
    requires { Inside area.old f }
    ensures { Changes area.old area.new f (confirm_open slot) }
{
    let input = OpenInput {
        phase: 1,
        slot,
        input: 5,
        client: 0,
        seq: 0,
        attempt: 0,
        verdict: 0,
        leader: 0,
        owed: 0,
        next: 0,
    };
    state_header::set_open(area, f, input);
}

// Leadership to be confirmed.
pub fn confirm_leadership_in(area: &mut [u8], g: Gate, server: u64, request: u64) -> OpenedAnswer
    requires { Gated area.old g }
    ensures { (result, area.new) ≡ call opened_no asked_yes area.old
        (confirm_leadership server (record { 0 = request })) }
{
    let refusal = g.refusal;
    let f = g.capacity;
    if 0 < refusal {
        return opened::opened_no(refusal);
    }
    let p = confirm_plan(area, f, server, request);
    let code = p.code;
    let running = p.running;
    if 0 < code {
        return opened::opened_no(code);
    }
    if !running {
        return opened::opened(answers::no_input());
    }
    open_confirmation(area, f, p.slot);
    opened::opened(opened::confirmation_input(NodeId(server), RequestId(request)))
}
