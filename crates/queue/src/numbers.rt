// Events as numbers: the kind in order of declaration from 0, and four numbers, 0 where an event has fewer.
ghost use Rattle.std.specs.Prelude.{◌≡◌};
ghost use Rattle.std.specs.Result.{result_ok};
ghost use Rattle.queue.specs.Numbers.{words_of, candidate, event_of};

use crate::Event;
use faults::{Fault, FaultNumbers};
use protocol::Timer;
use units::{LogIndex, NodeId};

// The numbers of an event.
#[derive(Clone, Copy, PartialEq, Eq)]
pub struct EventWords {
    pub kind: u64,
    pub a: u64,
    pub b: u64,
    pub c: u64,
    pub d: u64,
}

// Five numbers.
fn numbers(kind: u64, a: u64, b: u64, c: u64, d: u64) -> EventWords
    ensures { result ≡ record { kind = kind; a = a; b = b; c = c; d = d } }
{
    EventWords { kind, a, b, c, d }
}

impl From<Event> for EventWords {
    ghost from_gives = { λ event words. words ≡ words_of event };

    fn from(event: Event) -> EventWords {
        match event {
            Event::Start { slot } => numbers(0, slot, 0, 0, 0),
            Event::Deliver { from, to, entries } => numbers(1, from.0, to.0, entries, 0),
            Event::Timer {
                slot,
                timer,
                generation,
            } => numbers(2, slot, u64::from(timer), generation, 0),
            Event::Fault(fault) => {
                let n = FaultNumbers::from(fault);
                numbers(3, n.kind, n.first, n.second, 0)
            }
            Event::ClientSend { client } => numbers(4, client, 0, 0, 0),
            Event::ClientArrive {
                slot,
                client,
                seq,
                attempt,
            } => numbers(5, slot, client, seq, attempt),
            Event::ClientRedirect {
                client,
                attempt,
                leader,
            } => {
                let id = leader.map_or(0, |id| id.0);
                numbers(6, client, attempt, u64::from(leader.is_some()), id)
            }
            Event::ClientRetry { client, attempt } => numbers(7, client, attempt, 0, 0),
            Event::ClientReply { client, seq, index } => numbers(8, client, seq, index.0, 0),
            Event::ClientTimeout { client, attempt } => numbers(9, client, attempt, 0, 0),
        }
    }
}

// The only event that may have these numbers.
#[tactic(auto, using(crate::specs::NumberLaws::candidate_arms))]
pub fn candidate(w: EventWords) -> Event
    ensures { result ≡ candidate w }
{
    match w.kind {
        0 => Event::Start { slot: w.a },
        1 => Event::Deliver {
            from: NodeId(w.a),
            to: NodeId(w.b),
            entries: w.c,
        },
        2 => Event::Timer {
            slot: w.a,
            timer: Timer::try_from(w.b).unwrap_or(Timer::Election),
            generation: w.c,
        },
        3 => {
            let numbers = FaultNumbers {
                kind: w.a,
                first: w.b,
                second: w.c,
            };
            Event::Fault(Fault::try_from(numbers).unwrap_or(Fault::HealAll))
        }
        4 => Event::ClientSend { client: w.a },
        5 => Event::ClientArrive {
            slot: w.a,
            client: w.b,
            seq: w.c,
            attempt: w.d,
        },
        6 => Event::ClientRedirect {
            client: w.a,
            attempt: w.b,
            leader: (w.c != 0).then_some(NodeId(w.d)),
        },
        7 => Event::ClientRetry {
            client: w.a,
            attempt: w.b,
        },
        8 => Event::ClientReply {
            client: w.a,
            seq: w.b,
            index: LogIndex(w.c),
        },
        _ => Event::ClientTimeout {
            client: w.a,
            attempt: w.b,
        },
    }
}

// The event with these numbers.
impl TryFrom<EventWords> for Event {
    type Error = ();

    ghost try_from_gives = { λ words event. result_ok event ≡ event_of words };

    #[tactic(auto, using(crate::specs::NumberLaws::events))]
    fn try_from(words: EventWords) -> Result<Event, ()> {
        let event = candidate(words);
        if EventWords::from(event) == words {
            Ok(event)
        } else {
            Err(())
        }
    }
}
