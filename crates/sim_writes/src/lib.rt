// The writes of the open input (set_hard_state, put and truncate of storage.rs, by a server's node), behind the gate.
#![tactic(auto)]

ghost use Rattle.std.specs.Prelude.{◌≡◌, ◌≤◌, ◌<◌};
ghost use Rattle.model.specs.Calls.{write_hard_state_call, write_put_call, write_truncate_call};
ghost use Rattle.state.specs.Changes.{Inside, Gated};
ghost use Rattle.state.specs.Call.{call};
ghost use Rattle.answers.specs.Answers.{done_no, done_yes};
ghost use Rattle.sim_writes.specs.Writes.{AsksWriting, hard_state_given, MostBytes, PutsAt};

use answers::DoneAnswer;
use state::{Capacity, Gate};
use storage::HardState;
use units::{LogIndex, NodeId, Term};

// What a write asks of the phase: 0, or 6; the place of the open input's server.
#[derive(Clone, Copy)]
pub struct WritingAsked {
    pub code: u64,
    pub slot: u64,
}

// Question 6 of a write.
fn writing_asked(area: &[u8], f: Capacity) -> WritingAsked
    requires { Inside area.now f }
    ensures { AsksWriting area.now f result }
{
    let open = state_header::open_of(area, f);
    let phase = open.phase;
    let slot = open.slot;
    if phase != 1 {
        return WritingAsked { code: 6, slot: 0 };
    }
    WritingAsked { code: 0, slot }
}

// ---- term and vote

// The hard state of a term, a flag and a vote; of an absent vote the id is not looked at.
fn hard_state_given(term: u64, present: u64, vote: u64) -> HardState
    ensures { result ≡ hard_state_given term present vote }
{
    if present == 1 {
        HardState {
            term: Term(term),
            voted_for: Some(NodeId(vote)),
        }
    } else {
        HardState {
            term: Term(term),
            voted_for: None,
        }
    }
}

// Term and vote written.
pub fn write_hard_state_in(
    area: &mut [u8],
    g: Gate,
    term: u64,
    present: u64,
    vote: u64,
) -> DoneAnswer
    requires { Gated area.old g }
    ensures { (result, area.new) ≡ call done_no done_yes area.old (write_hard_state_call (record { 0 = term }) present vote) }
{
    let refusal = g.refusal;
    let f = g.capacity;
    if 0 < refusal {
        return answers::done(refusal);
    }
    let w = writing_asked(area, f);
    let code = w.code;
    let slot = w.slot;
    if 0 < code {
        return answers::done(code);
    }
    if 1 < present {
        return answers::done(9);
    }
    let state = hard_state_given(term, present, vote);
    let wrote = state_disk::write_hard_state(area, f, slot as usize, state);
    answers::done(wrote)
}

// ---- an entry

// How many bytes a payload of a kind may have: a noop none, a command the limit.
fn most_bytes(kind: u64, limit: u64) -> u64
    requires { limit ≤ 256 }
    ensures { MostBytes kind limit result }
{
    if kind == 0 { 0 } else { limit }
}

// Questions 8 and 9 of an entry that is put, and its write: what is answered.
fn put_at(
    area: &mut [u8],
    f: Capacity,
    k: u64,
    index: u64,
    term: u64,
    kind: u64,
    payload: &[u8],
) -> u64
    requires inside { Inside area.old f }
    requires k_lt_servers { k < f.servers }
    ensures { PutsAt area.old area.new f k index term kind payload.now result }
{
    let limits = f.limits;
    if index < 1 {
        return 8;
    }
    if limits.log_indexes < index {
        return 8;
    }
    if 1 < kind {
        return 9;
    }
    let most = most_bytes(kind, limits.payload);
    if most < (payload.len() as u64) {
        return 9;
    }
    let given = units::payload_of(kind, payload);
    state_disk::write_put(area, f, k as usize, LogIndex(index), Term(term), given)
}

// An entry put at an index of the log.
pub fn write_put_in(
    area: &mut [u8],
    g: Gate,
    index: u64,
    term: u64,
    kind: u64,
    payload: &[u8],
) -> DoneAnswer
    requires { Gated area.old g }
    ensures { (result, area.new) ≡ call done_no done_yes area.old (write_put_call (record { 0 = index }) (record { 0 = term }) kind payload.now) }
{
    let refusal = g.refusal;
    let f = g.capacity;
    if 0 < refusal {
        return answers::done(refusal);
    }
    let w = writing_asked(area, f);
    let code = w.code;
    let slot = w.slot;
    if 0 < code {
        return answers::done(code);
    }
    let wrote = put_at(area, f, slot, index, term, kind, payload);
    answers::done(wrote)
}

// ---- the log cut

// The log truncated from an index on.
pub fn write_truncate_in(area: &mut [u8], g: Gate, from: u64) -> DoneAnswer
    requires { Gated area.old g }
    ensures { (result, area.new) ≡ call done_no done_yes area.old (write_truncate_call (record { 0 = from })) }
{
    let refusal = g.refusal;
    let f = g.capacity;
    if 0 < refusal {
        return answers::done(refusal);
    }
    let w = writing_asked(area, f);
    let code = w.code;
    let slot = w.slot;
    if 0 < code {
        return answers::done(code);
    }
    let wrote = state_disk::write_truncate(area, f, slot as usize, LogIndex(from));
    answers::done(wrote)
}
