// The commands whose replies reached their clients (`replies` of simulation.rs): rows of five words, in order of arrival. The caller keeps
// the count n; a function that changes it answers the new one.
ghost use Rattle.std.specs.Prelude.{◌≡◌, ◌+◌, ◌*◌, ◌≤◌, ◌<◌, length, drop};
ghost use Rattle.laws.specs.Decides.{Decides};
ghost use Rattle.words.specs.Words.{W};
ghost use Rattle.layout.specs.Code.{ok_n};
ghost use Rattle.layout.specs.Tables.{Tabled};
ghost use Rattle.checks_durability.specs.Replies.{replies, Appends, Reads};

use layout::rows;
use units::{LogIndex, SimTime};

// A command whose reply reached its client: when it was first sent, when the reply came, the index at which it was applied, and its key.
#[derive(Clone, Copy)]
pub struct Reply {
    pub sent: SimTime,
    pub received: SimTime,
    pub index: LogIndex,
    pub client: u64,
    pub seq: u64,
}

// Keeps a reply after the n that there are, where there is room for so many, and answers the new count. None: there is no room for one more,
// and nothing changed. The region may be longer.
#[tactic(auto, using(crate::specs::ReplyLaws::appending))]
pub fn append(s: &mut [u8], n: usize, room: usize, reply: Reply) -> Option<usize>
    requires { 8 * (room * 5) ≤ length s.old }
    ensures { Appends reply n room result s.old s.new }
{
    if room <= n {
        return None;
    }
    let row = [
        reply.sent.0,
        reply.received.0,
        reply.index.0,
        reply.client,
        reply.seq,
    ];
    words::store_all(s, n * 5, &row);
    Some(n + 1)
}

// Reply k of n.
#[tactic(auto, using(crate::specs::ReplyLaws::read_is))]
pub fn read(s: &[u8], n: usize, k: usize) -> Reply
    requires { (k < n) × (8 * (n * 5) ≤ length s.now) }
    ensures { Reads n k result s.now }
{
    let at = k * 5;
    Reply {
        sent: SimTime(words::load(s, at)),
        received: SimTime(words::load(s, at + 1)),
        index: LogIndex(words::load(s, at + 2)),
        client: words::load(s, at + 3),
        seq: words::load(s, at + 4),
    }
}

// Whether the index of row k is at most l and its client below `clients`.
fn row_ok(s: &[u8], n: usize, k: usize, l: u64, clients: u64) -> bool
    requires { (k < n) × (8 * (n * 5) ≤ length s.now) }
    ensures { result ≡ (replies l clients).row.ok (drop (k * 5) (W s.now)) }
{
    let from = k * 5;
    words::load(s, from + 2) <= l && words::load(s, from + 3) < clients
}

// Whether every index is at most l and every client below `clients`.
fn rows_ok(s: &[u8], n: usize, l: u64, clients: u64) -> bool
    requires { 8 * (n * 5) ≤ length s.now }
    ensures { result ≡ ok_n (replies l clients).row n (W s.now) }
{
    (0..n).all(|k| row_ok(s, n, k, l, clients))
}

// Whether the bytes are a table of n replies at indexes up to l, to clients below `clients`.
#[tactic(auto, using(layout::specs::TableLaws::checks))]
pub fn check(s: &[u8], n: usize, l: u64, clients: u64) -> bool
    ensures { Decides result (Tabled (replies l clients) n s.now) }
{
    rows::padding(s, n, 5) && rows_ok(s, n, l, clients)
}
