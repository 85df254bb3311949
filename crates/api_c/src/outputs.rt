// The outputs of the open input.
ghost use Rattle.std.specs.Prelude.{◌≡◌};
ghost use Rattle.model.specs.Calls.{output_send, output_set_timer, output_cancel_timer, output_apply, output_confirmed, output_lost};
ghost use Rattle.state.specs.Call.{call};
ghost use Rattle.answers.specs.Answers.{done_no, done_yes};

use answers::DoneAnswer;
use api::outputs;

// A message sent to a server, with so many log entries.
#[unsafe(no_mangle)]
pub extern "C" fn sim_output_send(
    area: &mut [u8],
    to: u64,
    message: &[u8],
    entries: u64,
) -> DoneAnswer
    ensures { (result, area.new) ≡ call done_no done_yes area.old (output_send to message.now entries) }
{
    outputs::sim_output_send(area, to, message, entries)
}

// A timer set, in the place of one that is pending.
#[unsafe(no_mangle)]
pub extern "C" fn sim_output_set_timer(area: &mut [u8], timer: u64, after: u64) -> DoneAnswer
    ensures { (result, area.new) ≡ call done_no done_yes area.old (output_set_timer timer (record { 0 = after })) }
{
    outputs::sim_output_set_timer(area, timer, after)
}

// A timer cancelled.
#[unsafe(no_mangle)]
pub extern "C" fn sim_output_cancel_timer(area: &mut [u8], timer: u64) -> DoneAnswer
    ensures { (result, area.new) ≡ call done_no done_yes area.old (output_cancel_timer timer) }
{
    outputs::sim_output_cancel_timer(area, timer)
}

// An entry applied.
#[unsafe(no_mangle)]
pub extern "C" fn sim_output_apply(
    area: &mut [u8],
    index: u64,
    kind: u64,
    payload: &[u8],
) -> DoneAnswer
    ensures { (result, area.new) ≡ call done_no done_yes area.old (output_apply (record { 0 = index }) kind payload.now) }
{
    outputs::sim_output_apply(area, index, kind, payload)
}

// Leadership confirmed, with the read index.
#[unsafe(no_mangle)]
pub extern "C" fn sim_output_confirmed(area: &mut [u8], request: u64, read_index: u64) -> DoneAnswer
    ensures { (result, area.new) ≡ call done_no done_yes area.old (output_confirmed (record { 0 = request }) (record { 0 = read_index })) }
{
    outputs::sim_output_confirmed(area, request, read_index)
}

// Leadership lost.
#[unsafe(no_mangle)]
pub extern "C" fn sim_output_lost(area: &mut [u8], request: u64) -> DoneAnswer
    ensures { (result, area.new) ≡ call done_no done_yes area.old (output_lost (record { 0 = request })) }
{
    outputs::sim_output_lost(area, request)
}
