// What the checks write, over the whole area: a violation kept, an entry seen, a leader of a term, an applied payload.
#![tactic(auto)]

ghost use Rattle.std.specs.Prelude.{◌≡◌, true, ◌+◌, ◌*◌, ◌≤◌, ◌<◌, length, take};
ghost use Rattle.units.specs.Types.{payload_of};
ghost use Rattle.layout.specs.Tables.{Becomes, append};
ghost use Rattle.layout.specs.Marked.{words_for};
ghost use Rattle.layout.specs.Applied.{applied};
ghost use Rattle.checks.specs.Leaders.{InsertsLeader};
ghost use Rattle.checks.specs.Entries.{InsertsSeen};
ghost use Rattle.state.specs.Sizes.{seen_at, seen_words, leaders_at, applied_at, applied_words};
ghost use Rattle.state.specs.Changes.{Inside, Changes, Reads};
ghost use Rattle.state_checks.specs.Checked.{count_at, reported_if, applied_if, led_if, leaderless};
ghost use Rattle.state_checks.specs.Checked.{unseen, Sees, seen_of_if, CopiesRow, CopiesEntry, Stored};

use checks::{Check, entries, leaders, violations};
use layout::{applied, rows};
use state::{Capacity, sizes};
use units::{LogIndex, NodeId, SimTime, Term};

pub mod acts; // each check acted on

// Word j of the counts of rows, which is the area's word 83 + j.
fn count_of(area: &[u8], f: Capacity, j: usize) -> u64
    requires inside { Inside area.now f }
    requires j_bound { j < 8 }
    ensures { Reads area.now f result (count_at j) }
{
    words::load(&area[664..728], j)
}

// Counts a violation that is due, and keeps it while fewer than 32 are kept; the first five of `detail` are the numbers of its text.
// Nothing is written where the total has no 64 bits.
pub fn keep(area: &mut [u8], f: Capacity, due: bool, time: SimTime, check: Check, detail: &[u64])
    requires inside { Inside area.old f }
    ensures { Changes area.old area.new f (reported_if due time check (take 5 detail.now)) }
{
    if !due {
        return;
    }
    let kept = count_of(area, f, 6) as usize;
    let total = count_of(area, f, 7);
    if total == 18446744073709551615 {
        return;
    }
    let kept = violations::keep(&mut area[2048..4096], kept, true, time, check, detail);
    words::store(area, 89, kept as u64);
    words::store(area, 90, total + 1);
}

// ---- applied payloads

// One payload more in the table of n, and its count.
fn append_payload(area: &mut [u8], f: Capacity, n: usize, kind: u64, src: &[u8])
    requires inside { Inside area.old f }
    requires n_bound { n < f.limits.log_indexes }
    requires kind_bound { (kind ≤ 1) × (length src.now ≤ 256 * kind) × (length src.now ≤ f.limits.payload) }
    ensures { Stored area.old area.new (applied_at f) (applied_words f) 88 (n + 1)
        (λ u v. Becomes (applied f.limits.payload) n (n + 1) u v (append (payload_of kind src.now))) }
{
    let limits = f.limits;
    let at = sizes::applied_at(f);
    let w = sizes::applied_words(f);
    let a = 8 * at;
    let e = 8 * (at + w);
    applied::push(&mut area[a..e], n, limits.payload as usize, kind, src);
    words::store(area, 88, n as u64 + 1);
}

// One applied payload more, where it is due, of a kind and the bytes of src; a noop has none. Nothing is written where no place is left.
pub fn apply_payload(area: &mut [u8], f: Capacity, due: bool, kind: u64, src: &[u8])
    requires inside { Inside area.old f }
    requires kind_bound { (kind ≤ 1) × (length src.now ≤ 256 * kind) × (length src.now ≤ f.limits.payload) }
    ensures { Changes area.old area.new f (applied_if due (payload_of kind src.now)) }
{
    if !due {
        return;
    }
    let limits = f.limits;
    let n = count_of(area, f, 5);
    if limits.log_indexes <= n {
        return;
    }
    append_payload(area, f, n as usize, kind, src);
}

// ---- leaders

// Whether a term has no leader among the n of the table.
fn is_leaderless(area: &[u8], f: Capacity, n: usize, term: Term, server: NodeId) -> bool
    requires inside { Inside area.now f }
    requires n_lt_history { n < f.limits.history }
    requires reads { Reads area.now f n (count_at 2) }
    ensures { Reads area.now f result (leaderless term) }
{
    let limits = f.limits;
    let at = sizes::leaders_at(f);
    let a = 8 * at;
    let e = 8 * (at + limits.history as usize * 2);
    leaders::ask(&area[a..e], n, server, term).is_new()
}

// One leader more in the table of n, and its count.
fn insert_leader(area: &mut [u8], f: Capacity, n: usize, term: Term, server: NodeId)
    requires inside { Inside area.old f }
    requires n_lt_history { n < f.limits.history }
    ensures { Stored area.old area.new (leaders_at f) (f.limits.history * 2) 85 (n + 1)
        (InsertsLeader term server n) }
{
    let limits = f.limits;
    let at = sizes::leaders_at(f);
    let a = 8 * at;
    let e = 8 * (at + limits.history as usize * 2);
    leaders::insert(&mut area[a..e], n, term, server);
    words::store(area, 85, n as u64 + 1);
}

// The leader of a term, where it is due and the term has none. Nothing is written where no row is left.
pub fn lead(area: &mut [u8], f: Capacity, due: bool, term: Term, server: NodeId)
    requires { Inside area.old f }
    ensures { Changes area.old area.new f (led_if due term server) }
{
    if !due {
        return;
    }
    let limits = f.limits;
    let n = count_of(area, f, 2);
    if limits.history <= n {
        return;
    }
    if !is_leaderless(area, f, n as usize, term, server) {
        return;
    }
    insert_leader(area, f, n as usize, term, server);
}

// ---- entries seen

// Whether no entry was seen under an index and a term among the n of the table.
fn is_unseen(area: &[u8], f: Capacity, n: usize, index: LogIndex, term: Term) -> bool
    requires inside { Inside area.now f }
    requires n_lt_history { n < f.limits.history }
    requires reads { Reads area.now f n (count_at 1) }
    ensures { Reads area.now f result (unseen index term) }
{
    let limits = f.limits;
    let at = sizes::seen_at(f);
    let all = sizes::seen_words(f);
    let a = 8 * at;
    let e = 8 * (at + all);
    let w = 3 + (limits.payload as usize + 7) / 8;
    match rows::find(&area[a..e], n, w, (index.0, term.0)) {
        Ok(_) => false,
        Err(_) => true,
    }
}

// One entry more in the table of n, and its count. Its payload is lent in words.
fn insert_entry(area: &mut [u8], f: Capacity, n: usize, index: LogIndex, term: Term, content: &[u8])
    requires inside { Inside area.old f }
    requires n_lt_history { n < f.limits.history }
    requires content_len { length content.now ≡ 8 * (1 + words_for f.limits.payload) }
    ensures { Stored area.old area.new (seen_at f) (seen_words f) 84 (n + 1)
        (InsertsSeen f.limits.payload index term content.now n) }
{
    let limits = f.limits;
    let at = sizes::seen_at(f);
    let all = sizes::seen_words(f);
    let a = 8 * at;
    let e = 8 * (at + all);
    let p = limits.payload as usize;
    entries::insert(&mut area[a..e], n, p, index, term, content);
    words::store(area, 84, n as u64 + 1);
}

// An entry seen, where it is due and none was under its index and term. Its payload is lent in words. Nothing is written where no row is
// left.
pub fn see_entry(
    area: &mut [u8],
    f: Capacity,
    due: bool,
    index: LogIndex,
    term: Term,
    content: &[u8],
)
    requires inside { Inside area.old f }
    requires content_len { length content.now ≡ 8 * (1 + words_for f.limits.payload) }
    ensures { Sees area.old area.new content.now f due index term }
{
    if !due {
        return;
    }
    let limits = f.limits;
    let n = count_of(area, f, 1);
    if limits.history <= n {
        return;
    }
    if !is_unseen(area, f, n as usize, index, term) {
        return;
    }
    insert_entry(area, f, n as usize, index, term, content);
}

// ---- entries of a server's log

// Copies the words of the payload at an index of a log of l places; false where no entry is there.
fn copy_row(log: &[u8], l: usize, p: usize, index: LogIndex, row: &mut [u8]) -> bool
    requires p_bound { p ≤ 256 }
    requires p_in_bounds { 8 * (l * (2 + words_for p)) ≤ length log.now }
    requires row_len { length row.old ≡ 8 * (1 + words_for p) }
    ensures { CopiesRow p l index.0 result log.now row.new }
{
    let i = index.0 as usize;
    if i < 1 {
        return false;
    }
    if l < i {
        return false;
    }
    let w = 1 + (p + 7) / 8;
    let at = rows::start_of(i - 1, l, w + 1);
    let a = 8 * at;
    let e = 8 * (at + w);
    words::copy_from(row, 0, &log[a..e]);
    0 < words::load(row, 0)
}

// Copies the words of the payload at an index of the current log of the server at a place; false where no entry is there.
fn copy_entry(area: &[u8], f: Capacity, k: usize, index: LogIndex, row: &mut [u8]) -> bool
    requires inside { Inside area.now f }
    requires k_lt_servers { k < f.servers }
    requires row_len { length row.old ≡ 8 * (1 + words_for f.limits.payload) }
    ensures { CopiesEntry area.now f k index result row.new }
{
    let limits = f.limits;
    let at = sizes::block_at(f, k);
    let w = sizes::log_words(f);
    let a = 8 * (at + 64);
    let e = 8 * (at + 64 + w);
    let l = limits.log_indexes as usize;
    copy_row(&area[a..e], l, limits.payload as usize, index, row)
}

// The entry at an index of the current log of the server at a place seen, where it is there and none was seen under its index and the term.
// The words of its payload are copied into `row`.
fn see_copied(area: &mut [u8], f: Capacity, k: usize, index: LogIndex, term: Term, row: &mut [u8])
    requires inside { Inside area.old f }
    requires k_lt_servers { k < f.servers }
    requires row_len { length row.old ≡ 8 * (1 + words_for f.limits.payload) }
    ensures { Changes area.old area.new f (seen_of_if true k index term) }
{
    if copy_entry(area, f, k, index, row) {
        see_entry(area, f, true, index, term, row);
    }
}

// The same where it is due.
pub fn see_entry_of(area: &mut [u8], f: Capacity, due: bool, k: usize, index: LogIndex, term: Term)
    requires inside { Inside area.old f }
    requires k_lt_servers { k < f.servers }
    ensures { Changes area.old area.new f (seen_of_if due k index term) }
{
    if due {
        let limits = f.limits;
        let n = 8 * (1 + (limits.payload as usize + 7) / 8);
        let mut row = [0u8; 264];
        see_copied(area, f, k, index, term, &mut row[0..n]);
    }
}
