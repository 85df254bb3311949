// The writes of the open input.
ghost use Rattle.std.specs.Prelude.{◌≡◌};
ghost use Rattle.model.specs.Calls.{write_hard_state_call, write_put_call, write_truncate_call};
ghost use Rattle.state.specs.Call.{call};
ghost use Rattle.answers.specs.Answers.{done_no, done_yes};

use answers::DoneAnswer;

// Term and vote written; the flag says whether there is a vote.
pub fn sim_write_hard_state(area: &mut [u8], term: u64, present: u64, vote: u64) -> DoneAnswer
    ensures { (result, area.new) ≡ call done_no done_yes area.old (write_hard_state_call (record { 0 = term }) present vote) }
{
    let g = state_gate::gate(area);
    sim_writes::write_hard_state_in(area, g, term, present, vote)
}

// An entry put at an index of the log.
pub fn sim_write_put(
    area: &mut [u8],
    index: u64,
    term: u64,
    kind: u64,
    payload: &[u8],
) -> DoneAnswer
    ensures { (result, area.new) ≡ call done_no done_yes area.old (write_put_call (record { 0 = index }) (record { 0 = term }) kind payload.now) }
{
    let g = state_gate::gate(area);
    sim_writes::write_put_in(area, g, index, term, kind, payload)
}

// The log truncated from an index on.
pub fn sim_write_truncate(area: &mut [u8], from: u64) -> DoneAnswer
    ensures { (result, area.new) ≡ call done_no done_yes area.old (write_truncate_call (record { 0 = from })) }
{
    let g = state_gate::gate(area);
    sim_writes::write_truncate_in(area, g, from)
}
