// Leadership confirmed or lost: one confirmation more.
ghost use Rattle.std.specs.Prelude.{◌≡◌};
ghost use Rattle.model.specs.Calls.{output_confirmed, output_lost};
ghost use Rattle.state.specs.Changes.{Gated, Reads};
ghost use Rattle.state.specs.Call.{call};
ghost use Rattle.answers.specs.Answers.{done_no, done_yes};
ghost use Rattle.sim_outputs.specs.Outputs.{Passed};
ghost use Rattle.sim_outputs.specs.Confirmations.{confirm_code};

use crate::{asks_code, sender_of};
use answers::DoneAnswer;
use clients::confirmations::Confirmation;
use protocol::RequestId;
use state::{Capacity, Gate};
use units::LogIndex;

// The refusal of one confirmation more, or 0.
fn confirm_code(area: &[u8], f: Capacity) -> u64
    requires { Passed area.now f }
    ensures { Reads area.now f result confirm_code }
{
    let limits = f.limits;
    let sender = sender_of(area, f);
    let count = state_records::confirmation_count(area, f);
    asks_code(9, 10, sender.ready, true, count < limits.history)
}

// Leadership confirmed, with the read index (Output::LeadershipConfirmed).
pub fn output_confirmed_in(area: &mut [u8], g: Gate, request: u64, read_index: u64) -> DoneAnswer
    requires { Gated area.old g }
    ensures { (result, area.new) ≡ call done_no done_yes area.old (output_confirmed (record { 0 = request }) (record { 0 = read_index })) }
{
    let refusal = g.refusal;
    let f = g.capacity;
    if 0 < refusal {
        return answers::done(refusal);
    }
    let code = confirm_code(area, f);
    if 0 < code {
        return answers::done(code);
    }
    let confirmation = Confirmation {
        request: RequestId(request),
        read_index: Some(LogIndex(read_index)),
    };
    state_records::append_confirmation(area, f, confirmation);
    answers::done(0)
}

// Leadership lost (Output::LeadershipLost).
pub fn output_lost_in(area: &mut [u8], g: Gate, request: u64) -> DoneAnswer
    requires { Gated area.old g }
    ensures { (result, area.new) ≡ call done_no done_yes area.old (output_lost (record { 0 = request })) }
{
    let refusal = g.refusal;
    let f = g.capacity;
    if 0 < refusal {
        return answers::done(refusal);
    }
    let code = confirm_code(area, f);
    if 0 < code {
        return answers::done(code);
    }
    let confirmation = Confirmation {
        request: RequestId(request),
        read_index: None,
    };
    state_records::append_confirmation(area, f, confirmation);
    answers::done(0)
}
