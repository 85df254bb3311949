// The clients of a simulation (`clients` of simulation.rs): rows of 8 words, in the order of their numbers. The caller keeps the count n.
#![tactic(auto)]

ghost use Rattle.std.specs.Prelude.{◌≡◌, ◌+◌, ◌*◌, ◌≤◌, ◌<◌, length, drop};
ghost use Rattle.laws.specs.Decides.{Decides};
ghost use Rattle.words.specs.Words.{W};
ghost use Rattle.layout.specs.Code.{ok_n};
ghost use Rattle.layout.specs.Tables.{Tabled};
ghost use Rattle.clients.specs.Clients.{clients, client_code, outstanding_in, numbers_of, tell_outstanding, ReadsClient, WritesClient};

use layout::rows;
use units::SimTime;

pub mod confirmations; // the answers to requests to confirm leadership

// A command that a client waits for: its sequence number, and when it was first sent.
#[derive(Clone, Copy)]
pub struct Outstanding {
    pub seq: u64,
    pub first_sent: SimTime,
}

// A client, which sends one command after the other: the place of the server it sends to next, its next sequence number, its last attempt,
// which rises with every send, so that old timeouts and redirects are ignored, and the command that it waits for.
#[derive(Clone, Copy)]
pub struct Client {
    pub target: u64,
    pub next_seq: u64,
    pub attempt: u64,
    pub outstanding: Option<Outstanding>,
}

// The words of an outstanding command: 1 where there is one, its sequence number, and when it was first sent.
#[derive(Clone, Copy)]
struct Numbers {
    flag: u64,
    seq: u64,
    sent: u64,
}

// ---- the outstanding command

// Its words.
#[tactic(auto, unfolding(crate::specs::Clients::numbers_of))]
fn numbers_of(outstanding: Option<Outstanding>) -> Numbers
    ensures { result ≡ numbers_of outstanding }
{
    match outstanding {
        None => Numbers {
            flag: 0,
            seq: 0,
            sent: 0,
        },
        Some(Outstanding { seq, first_sent }) => Numbers {
            flag: 1,
            seq,
            sent: first_sent.0,
        },
    }
}

// The outstanding command that three words tell.
#[tactic(auto, unfolding(crate::specs::Clients::outstanding_in))]
fn outstanding_in(flag: u64, seq: u64, sent: u64) -> Option<Outstanding>
    ensures { result ≡ outstanding_in flag seq sent }
{
    (flag != 0).then_some(Outstanding {
        seq,
        first_sent: SimTime(sent),
    })
}

// Whether three words are those of an outstanding command, or of none.
#[tactic(auto, using(crate::specs::ClientLaws::tell_three))]
fn tell_outstanding(flag: u64, seq: u64, sent: u64) -> bool
    ensures { result ≡ tell_outstanding flag seq sent }
{
    if flag == 0 {
        seq == 0 && sent == 0
    } else {
        flag == 1
    }
}

// ---- rows

// Client k of n.
#[tactic(auto, using(crate::specs::ClientLaws::read_is))]
pub fn read(s: &[u8], n: usize, k: usize) -> Client
    requires { (k < n) × (8 * (n * 8) ≤ length s.now) }
    ensures { ReadsClient n k result s.now }
{
    let at = k * 8;
    let flag = words::load(s, at + 3);
    let seq = words::load(s, at + 4);
    let outstanding = outstanding_in(flag, seq, words::load(s, at + 5));
    Client {
        target: words::load(s, at),
        next_seq: words::load(s, at + 1),
        attempt: words::load(s, at + 2),
        outstanding,
    }
}

// Puts a client in the place of client k.
#[tactic(auto, using(crate::specs::ClientLaws::write_is))]
pub fn write(s: &mut [u8], n: usize, k: usize, client: Client)
    requires { (k < n) × (8 * (n * 8) ≤ length s.old) }
    ensures { WritesClient n k client s.old s.new }
{
    let outstanding = client.outstanding;
    let o = numbers_of(outstanding);
    let row = [
        client.target,
        client.next_seq,
        client.attempt,
        o.flag,
        o.seq,
        o.sent,
        0,
        0,
    ];
    words::store_all(s, k * 8, &row);
}

// ---- the test of a region

// Whether row k is a client whose target is below `servers`.
#[tactic(auto, using(crate::specs::ClientLaws::row_tests))]
fn row_ok(s: &[u8], n: usize, k: usize, servers: u64) -> bool
    requires { (k < n) × (8 * (n * 8) ≤ length s.now) }
    ensures { result ≡ (client_code servers).ok (drop (k * 8) (W s.now)) }
{
    let at = k * 8;
    if servers <= words::load(s, at) {
        return false;
    }
    let flag = words::load(s, at + 3);
    let seq = words::load(s, at + 4);
    if !tell_outstanding(flag, seq, words::load(s, at + 5)) {
        return false;
    }
    words::zero_words(s, at + 6, at + 8)
}

// Whether each row is a client.
fn rows_ok(s: &[u8], n: usize, servers: u64) -> bool
    requires { 8 * (n * 8) ≤ length s.now }
    ensures { result ≡ ok_n (clients servers).row n (W s.now) }
{
    (0..n).all(|k| row_ok(s, n, k, servers))
}

// Whether the bytes are a table of n clients whose targets are below `servers`.
#[tactic(auto, using(layout::specs::TableLaws::checks))]
pub fn check(s: &[u8], n: usize, servers: u64) -> bool
    ensures { Decides result (Tabled (clients servers) n s.now) }
{
    rows::padding(s, n, 8) && rows_ok(s, n, servers)
}
