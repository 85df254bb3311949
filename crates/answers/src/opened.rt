// The inputs that calls open, and the answers that tell them.
ghost use Rattle.std.specs.Prelude.{◌≡◌};
ghost use Rattle.model.specs.Simulation.{open_start, open_timer, open_proposal, open_confirmation};
ghost use Rattle.answers.specs.Answers.{input_of, message_numbers, opened_no, opened_of, stepped_no, stepped_of, sealed_no, sealed_of};

use crate::{InputNumbers, OpenedAnswer, SealedAnswer, SteppedAnswer, no_input};
use protocol::{RequestId, Timer};
use units::NodeId;

// A server's start: its incarnation, and the seed of its own generator.
pub fn start_input(server: NodeId, incarnation: u64, seed: u64) -> InputNumbers
    ensures { result ≡ input_of (open_start server incarnation seed) }
{
    InputNumbers {
        kind: 1,
        server: server.0,
        first: incarnation,
        second: seed,
        third: 0,
    }
}

// A message of so many bytes, which go to the lent buffer.
pub fn message_input(server: NodeId, sender: NodeId, length: u64, entries: u64) -> InputNumbers
    ensures { result ≡ message_numbers server sender length entries }
{
    InputNumbers {
        kind: 2,
        server: server.0,
        first: sender.0,
        second: length,
        third: entries,
    }
}

// A timer.
pub fn timer_input(server: NodeId, timer: Timer) -> InputNumbers
    ensures { result ≡ input_of (open_timer server timer) }
{
    InputNumbers {
        kind: 3,
        server: server.0,
        first: u64::from(timer),
        second: 0,
        third: 0,
    }
}

// A proposal: the host builds the command from client and sequence number.
pub fn proposal_input(server: NodeId, client: u64, sequence: u64) -> InputNumbers
    ensures { result ≡ input_of (open_proposal server client sequence) }
{
    InputNumbers {
        kind: 4,
        server: server.0,
        first: client,
        second: sequence,
        third: 0,
    }
}

// A request to confirm leadership.
pub fn confirmation_input(server: NodeId, request: RequestId) -> InputNumbers
    ensures { result ≡ input_of (open_confirmation server request) }
{
    InputNumbers {
        kind: 5,
        server: server.0,
        first: request.0,
        second: 0,
        third: 0,
    }
}

// A refused start, direct call or end.
pub fn opened_no(refusal: u64) -> OpenedAnswer
    ensures { result ≡ opened_no refusal }
{
    OpenedAnswer {
        refusal,
        input: no_input(),
    }
}

// An accepted one, with the input that it opened.
pub fn opened(input: InputNumbers) -> OpenedAnswer
    ensures { result ≡ opened_of input }
{
    OpenedAnswer { refusal: 0, input }
}

// A refused step.
pub fn stepped_no(refusal: u64) -> SteppedAnswer
    ensures { result ≡ stepped_no refusal }
{
    SteppedAnswer {
        refusal,
        taken: 0,
        input: no_input(),
    }
}

// An accepted one: 1 where an event was taken, and the input that it opened.
pub fn stepped(taken: u64, input: InputNumbers) -> SteppedAnswer
    ensures { result ≡ stepped_of taken input }
{
    SteppedAnswer {
        refusal: 0,
        taken,
        input,
    }
}

// A refused seal.
pub fn sealed_no(refusal: u64) -> SealedAnswer
    ensures { result ≡ sealed_no refusal }
{
    SealedAnswer {
        refusal,
        outcome: 0,
        input: no_input(),
    }
}

// An accepted one: how it ended, and the start that it opened.
pub fn sealed(outcome: u64, input: InputNumbers) -> SealedAnswer
    ensures { result ≡ sealed_of outcome input }
{
    SealedAnswer {
        refusal: 0,
        outcome,
        input,
    }
}
