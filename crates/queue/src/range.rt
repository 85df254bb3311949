// The ranges of a queued event.
ghost use Rattle.std.specs.Prelude.{◌≡◌};
ghost use Rattle.queue.specs.Range.{in_range, message_room};

use crate::Event;

// How many servers, clients and log indexes there are, and how many bytes the message of a delivery may have.
#[derive(Clone, Copy)]
pub struct Ranges {
    pub servers: u64,
    pub clients: u64,
    pub indexes: u64,
    pub message: usize,
}

impl Ranges {
    // Whether an event is in range.
    #[tactic(auto, using(crate::specs::RangeLaws::ranges))]
    pub fn in_range(self, event: Event) -> bool
        ensures { result ≡ in_range self.servers self.clients self.indexes event }
    {
        match event {
            Event::Start { slot } | Event::Timer { slot, .. } => slot < self.servers,
            Event::Deliver { from, to, entries } => faults::in_cluster(self.servers, from)
                & faults::in_cluster(self.servers, to)
                & (entries < 4294967296),
            Event::Fault(fault) => faults::fault_in_range(self.servers, fault),
            Event::ClientArrive { slot, client, .. } => (slot < self.servers)
                & (client < self.clients),
            Event::ClientReply { client, index, .. } => (client < self.clients)
                & (index.0 <= self.indexes),
            Event::ClientSend { client }
            | Event::ClientRedirect { client, .. }
            | Event::ClientRetry { client, .. }
            | Event::ClientTimeout { client, .. } => client < self.clients,
        }
    }

    // How many bytes the message of an event may have.
    #[tactic(auto, unfolding(crate::specs::Range::message_room))]
    pub fn message_room(self, event: Event) -> usize
        ensures { result ≡ message_room self.message event }
    {
        match event {
            Event::Deliver { .. } => self.message,
            _ => 0,
        }
    }
}
