// metrics.bin: operations on one set of counters, each with what it leaves.
ghost use Rattle.std.specs.Prelude.{◌≡◌, ◌<◌, length};

use metrics::{Counts, Metrics};
use units::NodeId;
use units::refusal::Refusal;

// Counts that are all one value.
fn counts_of(value: u64) -> Counts {
    Counts {
        messages: value,
        bytes: value,
        entries: value,
    }
}

// Counters that are all one value.
fn all_of(value: u64) -> Metrics {
    let counts = counts_of(value);
    Metrics {
        sent: counts,
        by_sender: [counts; 8],
        entries_to_leaders: value,
        fsyncs: value,
        storage_bytes: value,
        client_replies: value,
    }
}

// A message of a server counted; one that is none sends nothing.
fn sent(m: Metrics, server: u64, bytes: u64, entries: u64) -> Option<Metrics> {
    if server < 1 || 8 < server {
        return Some(m);
    }
    m.record_send(NodeId(server), bytes, entries)
}

// The counters of one server set to a value.
fn sender_set(mut m: Metrics, server: u64, value: u64) -> Metrics {
    if 1 <= server && server <= 8 {
        m.by_sender[(server - 1) as usize] = counts_of(value);
    }
    m
}

// The counters after a row's operation (kind and three numbers), where they fit. No enum of the kinds: it would be matched once, right
// after the match that reads it.
fn operate(m: Metrics, row: &[u8; 288]) -> Option<Metrics> {
    let first = words::load(row, 1);
    match words::load(row, 0) {
        0 => sent(m, first, words::load(row, 2), words::load(row, 3)),
        1 => m.deliver_to_leader(first),
        2 => m.record_sync(first),
        3 => m.record_reply(),
        4 => Some(all_of(first)),
        _ => Some(sender_set(m, first, words::load(row, 2))),
    }
}

// Whether three words are counts: messages, bytes, entries.
fn counts_told(counts: Counts, told: &[u8]) -> bool
    requires { length told.now ≡ 24 }
{
    (counts.messages == words::load(told, 0))
        & (counts.bytes == words::load(told, 1))
        & (counts.entries == words::load(told, 2))
}

// Whether a row tells the counts of the server in slot k.
fn sender_told(m: Metrics, row: &[u8; 288], k: usize) -> bool
    requires { k < 8 }
{
    let from = 96 + 24 * k;
    let to = from + 24;
    counts_told(m.sent_by(NodeId(k as u64 + 1)), &row[from..to])
}

// Whether a row tells entries to leaders, syncs, bytes synced, replies.
fn totals_told(m: Metrics, row: &[u8; 288]) -> bool {
    (m.entries_to_leaders == words::load(row, 8))
        & (m.fsyncs == words::load(row, 9))
        & (m.storage_bytes == words::load(row, 10))
        & (m.client_replies == words::load(row, 11))
}

// Whether a row tells the counters after its operation.
fn told(m: Metrics, row: &[u8; 288]) -> bool {
    counts_told(m.sent, &row[40..64])
        & totals_told(m, row)
        & (0..8).all(|k: usize| sender_told(m, row, k))
}

// A row of metrics.bin: an operation, its answer, and what it leaves.
pub fn agrees(m: &mut Metrics, row: &[u8; 288]) -> bool {
    let after = operate(*m, row);
    let answer = after.map_or(u64::from(Refusal::Room), |_| 0);
    *m = after.unwrap_or(*m);
    (answer == words::load(row, 4)) & told(*m, row)
}
