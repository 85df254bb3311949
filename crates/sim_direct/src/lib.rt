// The direct calls (propose, fire_timer, confirm_leadership of simulation.rs), behind the gate: each opens an input of a server that runs.
#![tactic(auto)]

ghost use Rattle.std.specs.Prelude.{◌≡◌, ◌<◌};
ghost use Rattle.model.specs.Calls.{fire_timer};
ghost use Rattle.state.specs.Changes.{Inside, Gated};
ghost use Rattle.state.specs.Call.{call};
ghost use Rattle.answers.specs.Answers.{opened_no, opened_yes};
ghost use Rattle.sim_direct.specs.Direct.{timer_given, AsksDirect, FirePlanned, timer_open, OpensTimer};

use answers::{OpenedAnswer, opened};
use protocol::Timer;
use state::{Capacity, Gate, OpenInput};
use units::NodeId;

pub mod asked; // a proposal, leadership to be confirmed

// What a direct call asks of its server: 0, or the refusal; its place, and whether it runs.
#[derive(Clone, Copy)]
pub struct DirectAsked {
    pub code: u64,
    pub slot: u64,
    pub running: bool,
}

// Questions 6 and 7 of a direct call, and whether its server runs.
fn direct_asked(area: &[u8], f: Capacity, server: u64) -> DirectAsked
    requires { Inside area.now f }
    ensures { AsksDirect area.now f server result }
{
    let open = state_header::open_of(area, f);
    if open.phase != 0 {
        return DirectAsked {
            code: 6,
            slot: 0,
            running: false,
        };
    }
    if server < 1 {
        return DirectAsked {
            code: 7,
            slot: 0,
            running: false,
        };
    }
    if f.servers < server {
        return DirectAsked {
            code: 7,
            slot: 0,
            running: false,
        };
    }
    let slot = server - 1;
    let status = state_server::status_of(area, f, slot as usize);
    DirectAsked {
        code: 0,
        slot,
        running: state_server::runs(status),
    }
}

// ---- fire_timer

// The timer of a number; of another number it is the election timer.
fn timer_given(timer: u64) -> Timer
    ensures { result ≡ timer_given timer }
{
    if timer == 1 {
        Timer::Heartbeat
    } else {
        Timer::Election
    }
}

// What firing a timer will do, or the refusal.
fn fire_timer_plan(area: &[u8], f: Capacity, server: u64, timer: u64) -> DirectAsked
    requires { Inside area.now f }
    ensures { FirePlanned area.now f server timer result }
{
    let asked = direct_asked(area, f, server);
    let code = asked.code;
    if 0 < code {
        return asked;
    }
    if 1 < timer {
        return DirectAsked {
            code: 9,
            slot: 0,
            running: false,
        };
    }
    asked
}

// The timer's input opens.
fn open_timer(area: &mut [u8], f: Capacity, slot: u64)
    requires { Inside area.old f }
    ensures { OpensTimer area.old area.new f slot }
{
    let input = OpenInput {
        phase: 1,
        slot,
        input: 2,
        client: 0,
        seq: 0,
        attempt: 0,
        verdict: 0,
        leader: 0,
        owed: 0,
        next: 0,
    };
    state_header::set_open(area, f, input);
}

// A timer fired now, whether or not it is pending: a stopped server does nothing.
pub fn fire_timer_in(area: &mut [u8], g: Gate, server: u64, timer: u64) -> OpenedAnswer
    requires { Gated area.old g }
    ensures { (result, area.new) ≡ call opened_no opened_yes area.old (fire_timer server timer) }
{
    let refusal = g.refusal;
    let f = g.capacity;
    if 0 < refusal {
        return opened::opened_no(refusal);
    }
    let p = fire_timer_plan(area, f, server, timer);
    let code = p.code;
    let running = p.running;
    if 0 < code {
        return opened::opened_no(code);
    }
    if !running {
        return opened::opened(answers::no_input());
    }
    let kind = timer_given(timer);
    open_timer(area, f, p.slot);
    opened::opened(opened::timer_input(NodeId(server), kind))
}
