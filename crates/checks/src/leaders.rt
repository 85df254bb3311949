// The leader of each term seen so far (`leaders` of checks.rs): rows of two words, the term and the first server seen to lead it, the terms
// rising. The caller keeps the count n.
ghost use Rattle.std.specs.Prelude.{◌≡◌, ◌+◌, ◌*◌, ◌≤◌, ◌<◌, length, drop};
ghost use Rattle.laws.specs.Decides.{Decides};
ghost use Rattle.words.specs.Words.{W};
ghost use Rattle.layout.specs.Code.{ok_n};
ghost use Rattle.layout.specs.Tables.{Tabled};
ghost use Rattle.checks.specs.Leaders.{leaders, AsksLeader, InsertsLeader};

use crate::Compared;
use layout::rows;
use units::{NodeId, Term};

// Compares a server that leads a term with the first seen to lead it (on_status).
#[tactic(auto, using(layout::specs::SortedTables::found))]
pub fn ask(s: &[u8], n: usize, server: NodeId, term: Term) -> Compared<NodeId>
    requires { 8 * (n * 2) ≤ length s.now }
    ensures { AsksLeader server term n result s.now }
{
    match rows::find(s, n, 2, term.0) {
        Ok(i) => {
            let at = rows::start_of(i, n, 2);
            let first = words::load(s, at + 1);
            if first == server.0 {
                Compared::Same
            } else {
                Compared::Other(NodeId(first))
            }
        }
        Err(_) => Compared::New,
    }
}

// The first leader of a term, which has none yet; there is room for it.
pub fn insert(s: &mut [u8], n: usize, term: Term, server: NodeId)
    requires { 8 * (n * 2 + 2) ≤ length s.old }
    ensures { InsertsLeader term server n s.old s.new }
{
    let i = rows::place(s, n, 2, term.0);
    let at = rows::start(i, n, 2);
    rows::open_row(s, n, i, 2);
    words::store_all(s, at, &[term.0, server.0]);
}

// Whether row k is a leader among the servers 1 to `servers`.
#[tactic(auto, using(crate::specs::LeaderLaws::server_rows))]
fn row_ok(s: &[u8], n: usize, k: usize, servers: u64) -> bool
    requires { (k < n) × (8 * (n * 2) ≤ length s.now) }
    ensures { result ≡ (leaders servers).row.ok (drop (k * 2) (W s.now)) }
{
    let server = words::load(s, k * 2 + 1);
    1 <= server && server <= servers
}

// Whether each row is a leader among the servers 1 to `servers`.
fn rows_ok(s: &[u8], n: usize, servers: u64) -> bool
    requires { 8 * (n * 2) ≤ length s.now }
    ensures { result ≡ ok_n (leaders servers).row n (W s.now) }
{
    (0..n).all(|k| row_ok(s, n, k, servers))
}

// Whether the bytes are a table of n leaders among the servers 1 to `servers`.
#[tactic(auto, using(layout::specs::TableLaws::checks, crate::specs::LeaderLaws::leaders_rising))]
pub fn check(s: &[u8], n: usize, servers: u64) -> bool
    ensures { Decides result (Tabled (leaders servers) n s.now) }
{
    if !rows::padding(s, n, 2) {
        return false;
    }
    if !rows_ok(s, n, servers) {
        return false;
    }
    rows::rising::<u64>(s, n, 2)
}
