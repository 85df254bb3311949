// Measurements (metrics.rs).
#![tactic(auto)]

ghost use Rattle.std.specs.Prelude.{◌≡◌, ◌≤◌};
ghost use Rattle.metrics.specs.Metrics.{no_metrics, add, totals_fit, record_send, sent_by, deliver_to_leader, record_sync, record_reply, checked, Counting};

use units::NodeId;

// Message totals.
#[derive(Clone, Copy)]
pub struct Counts {
    pub messages: u64,
    // Zero when byte counting is off.
    pub bytes: u64,
    pub entries: u64,
}

// Counters for one run.
#[derive(Clone, Copy)]
pub struct Metrics {
    // Every message sent between servers.
    pub sent: Counts,
    // Messages sent, by sending server, at its id less one: zeros for one that has sent nothing.
    pub by_sender: [Counts; 8],
    // Log entries carried by messages delivered to a candidate or leader.
    pub entries_to_leaders: u64,
    // Storage syncs that wrote something.
    pub fsyncs: u64,
    // Bytes those syncs wrote.
    pub storage_bytes: u64,
    // Client commands acknowledged to their clients.
    pub client_replies: u64,
}

impl Counts {
    // One message more, where that fits 64 bits.
    #[tactic(auto, using(crate::specs::Laws::adding))]
    fn add(self, bytes: u64, entries: u64) -> Option<Counts>
        ensures { result ≡ checked totals_fit (add bytes entries self) }
    {
        Some(Counts {
            messages: self.messages.checked_add(1)?,
            bytes: self.bytes.checked_add(bytes)?,
            entries: self.entries.checked_add(entries)?,
        })
    }
}

impl Metrics {
    // Nothing counted yet.
    pub fn new() -> Metrics
        ensures { result ≡ no_metrics }
    {
        let none = Counts {
            messages: 0,
            bytes: 0,
            entries: 0,
        };
        Metrics {
            sent: none,
            by_sender: [none; 8],
            entries_to_leaders: 0,
            fsyncs: 0,
            storage_bytes: 0,
            client_replies: 0,
        }
    }

    // The metrics with a message sent by a server; none where a counter would pass 64 bits, as of each count below.
    pub fn record_send(mut self, from: NodeId, bytes: u64, entries: u64) -> Option<Metrics>
        requires { (1 ≤ from.0) × (from.0 ≤ 8) }
        ensures { Counting (record_send self from bytes entries) result }
    {
        let at = (from.0 - 1) as usize;
        self.sent = self.sent.add(bytes, entries)?;
        self.by_sender[at] = self.by_sender[at].add(bytes, entries)?;
        Some(self)
    }

    // The totals for messages sent by a server.
    pub fn sent_by(self, server: NodeId) -> Counts
        requires { (1 ≤ server.0) × (server.0 ≤ 8) }
        ensures { result ≡ sent_by self server }
    {
        self.by_sender[(server.0 - 1) as usize]
    }

    // Entries delivered to a candidate or leader.
    pub fn deliver_to_leader(mut self, entries: u64) -> Option<Metrics>
        ensures { Counting (deliver_to_leader self entries) result }
    {
        self.entries_to_leaders = self.entries_to_leaders.checked_add(entries)?;
        Some(self)
    }

    // A sync that wrote so many bytes.
    pub fn record_sync(mut self, bytes: u64) -> Option<Metrics>
        ensures { Counting (record_sync self bytes) result }
    {
        self.fsyncs = self.fsyncs.checked_add(1)?;
        self.storage_bytes = self.storage_bytes.checked_add(bytes)?;
        Some(self)
    }

    // A command acknowledged to its client.
    pub fn record_reply(mut self) -> Option<Metrics>
        ensures { Counting (record_reply self) result }
    {
        self.client_replies = self.client_replies.checked_add(1)?;
        Some(self)
    }
}
