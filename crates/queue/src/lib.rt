// The event queue (queue.rs) and the events in it (simulation.rs Event).
#![tactic(auto)]

use faults::Fault;
use protocol::Timer;
use units::{LogIndex, NodeId};

pub mod numbers; // events as numbers
pub mod range; // the ranges of an event
pub mod table; // the queue as a table

// What happens next. A message's bytes stand beside its event.
#[derive(Clone, Copy)]
pub enum Event {
    Start {
        slot: u64,
    },
    Deliver {
        from: NodeId,
        to: NodeId,
        entries: u64,
    },
    Timer {
        slot: u64,
        timer: Timer,
        generation: u64,
    },
    Fault(Fault),
    ClientSend {
        client: u64,
    },
    ClientArrive {
        slot: u64,
        client: u64,
        seq: u64,
        attempt: u64,
    },
    ClientRedirect {
        client: u64,
        attempt: u64,
        leader: Option<NodeId>,
    },
    ClientRetry {
        client: u64,
        attempt: u64,
    },
    ClientReply {
        client: u64,
        seq: u64,
        index: LogIndex,
    },
    ClientTimeout {
        client: u64,
        attempt: u64,
    },
}
