// The counters of a run in a region of 31 words: the totals of all messages, those of each of the eight servers, and four counters. Totals are three
// words: messages, bytes, entries.
#![tactic(auto)]

ghost use Rattle.std.specs.Prelude.{◌≡◌, ◌+◌, ◌*◌, ◌≤◌, length, drop};
ghost use Rattle.std.proofs.lemmas.List.Edits.{sets};
ghost use Rattle.laws.specs.Decides.{Decides};
ghost use Rattle.words.specs.Words.{bytes, W};
ghost use Rattle.layout.specs.Code.{flat, parse_n};
ghost use Rattle.layout.specs.Tables.{Content};
ghost use Rattle.layout.specs.Regions.{Loads, Stores};
ghost use Rattle.metrics.specs.Metrics.{metrics_fit};
ghost use Rattle.metrics_words.specs.MetricsCode.{counts_code, counts_at, metrics_code};

use metrics::{Counts, Metrics};
use std::array;

// The totals in three words from word i on.
#[tactic(auto, unfolding(crate::specs::MetricsCode::counts_at))]
fn load_counts(s: &[u8], i: usize) -> Counts
    requires { 8 * i + 24 ≤ length s.now }
    ensures { result ≡ counts_at (W s.now) i }
{
    Counts {
        messages: words::load(s, i),
        bytes: words::load(s, i + 1),
        entries: words::load(s, i + 2),
    }
}

// The totals of the eight servers.
fn load_senders(s: &[u8]) -> [Counts; 8]
    requires { length s.now ≡ 248 }
    ensures { result ≡ parse_n counts_code 8 (drop 3 (W s.now)) }
{
    array::from_fn(|k| load_counts(s, 3 + k * 3))
}

// The metrics whose content the region is.
pub fn load(s: &[u8]) -> Metrics
    requires { length s.now ≡ 248 }
    ensures { Loads metrics_code s.now result }
{
    Metrics {
        sent: load_counts(s, 0),
        by_sender: load_senders(s),
        entries_to_leaders: words::load(s, 27),
        fsyncs: words::load(s, 28),
        storage_bytes: words::load(s, 29),
        client_replies: words::load(s, 30),
    }
}

// Writes totals to three words from word i on.
fn store_counts(s: &mut [u8], i: usize, c: Counts)
    requires { 8 * i + 24 ≤ length s.old }
    ensures { s.new ≡ sets s.old (8 * i) (bytes (counts_code.enc c)) }
{
    let row = [c.messages, c.bytes, c.entries];
    words::store_all(s, i, &row);
}

// Writes the totals of the eight servers.
fn store_senders(s: &mut [u8], senders: [Counts; 8])
    requires { length s.old ≡ 248 }
    ensures { s.new ≡ sets s.old (8 * 3) (bytes (flat counts_code.enc senders)) }
{
    for (k, sender) in senders.iter().enumerate() {
        store_counts(s, 3 + k * 3, *sender);
    }
}

// Makes the region the content of metrics.
pub fn store(s: &mut [u8], m: Metrics)
    requires { length s.old ≡ 248 }
    ensures { Stores metrics_code metrics_fit m s.new }
{
    let senders = m.by_sender;
    let rest = [
        m.entries_to_leaders,
        m.fsyncs,
        m.storage_bytes,
        m.client_replies,
    ];
    store_counts(s, 0, m.sent);
    store_senders(s, senders);
    words::store_all(s, 27, &rest);
}

// Whether the region is the content of metrics of so many servers: any 31 words are whose totals beyond them are zero.
pub fn check(s: &[u8], servers: u64) -> bool
    requires { servers ≤ 8 }
    ensures { Decides result (Content (metrics_code servers) s.now) }
{
    if s.len() != 248 {
        return false;
    }
    words::zero_words(s, 3 + 3 * (servers as usize), 27)
}
