// The writes of the open input.
ghost use Rattle.std.specs.Prelude.{◌≡◌};
ghost use Rattle.model.specs.Calls.{write_hard_state_call, write_put_call, write_truncate_call};
ghost use Rattle.state.specs.Call.{call};
ghost use Rattle.answers.specs.Answers.{done_no, done_yes};

use answers::DoneAnswer;
use api::writes;

// Term and vote written; the flag says whether there is a vote.
#[unsafe(no_mangle)]
pub extern "C" fn sim_write_hard_state(
    area: &mut [u8],
    term: u64,
    present: u64,
    vote: u64,
) -> DoneAnswer
    ensures { (result, area.new) ≡ call done_no done_yes area.old (write_hard_state_call (record { 0 = term }) present vote) }
{
    writes::sim_write_hard_state(area, term, present, vote)
}

// An entry put at an index of the log.
#[unsafe(no_mangle)]
pub extern "C" fn sim_write_put(
    area: &mut [u8],
    index: u64,
    term: u64,
    kind: u64,
    payload: &[u8],
) -> DoneAnswer
    ensures { (result, area.new) ≡ call done_no done_yes area.old (write_put_call (record { 0 = index }) (record { 0 = term }) kind payload.now) }
{
    writes::sim_write_put(area, index, term, kind, payload)
}

// The log truncated from an index on.
#[unsafe(no_mangle)]
pub extern "C" fn sim_write_truncate(area: &mut [u8], from: u64) -> DoneAnswer
    ensures { (result, area.new) ≡ call done_no done_yes area.old (write_truncate_call (record { 0 = from })) }
{
    writes::sim_write_truncate(area, from)
}
