// Why a call is refused: document 01's questions, of which a call gives the number of the first that it answers no.
ghost use Rattle.std.specs.Prelude.{◌≡◌};
ghost use Rattle.units.specs.Refusals.{refusal_number, answer_number};

// The question that is answered no.
#[derive(Clone, Copy)]
pub enum Refusal {
    // Are there 1 to 8 servers?
    Servers,
    // Does `Config::validate` accept?
    Consensus,
    // Are the other settings within limits?
    Settings,
    // Is the area long enough?
    AreaLength,
    // Are its bytes the layout of some state with every field in its range?
    AreaBytes,
    // Does the call belong to this phase?
    Phase,
    // Is every server that the call names in the cluster?
    UnknownServer,
    // Is the log index in its range?
    LogIndex,
    // Are the times, factors, lengths and kinds within limits, and is the buffer long enough?
    Argument,
    // Does the state that the call gives fit all tables, counters and times, or the schedule its list?
    Room,
    // Did a second server come within 64 draws?
    SecondServer,
}

impl From<Refusal> for u64 {
    ghost from_gives = { λ refusal n. n ≡ refusal_number refusal };

    fn from(refusal: Refusal) -> u64 {
        match refusal {
            Refusal::Servers => 1,
            Refusal::Consensus => 2,
            Refusal::Settings => 3,
            Refusal::AreaLength => 4,
            Refusal::AreaBytes => 5,
            Refusal::Phase => 6,
            Refusal::UnknownServer => 7,
            Refusal::LogIndex => 8,
            Refusal::Argument => 9,
            Refusal::Room => 10,
            Refusal::SecondServer => 11,
        }
    }
}

// The number that a call answers: 0 where it is accepted.
pub fn answer_number(answer: Result<(), Refusal>) -> u64
    ensures { result ≡ answer_number answer }
{
    match answer {
        Ok(()) => 0,
        Err(refusal) => u64::from(refusal),
    }
}
