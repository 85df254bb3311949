// The first payload written under each index and term (`entries` of checks.rs): rows of 3 + ⌈p/8⌉ words, the index, the term and the
// payload, rising by index and term, where p is the greatest length of a command. The caller keeps the count n.
ghost use Rattle.std.specs.Prelude.{◌≡◌, ◌+◌, ◌*◌, ◌≤◌, ◌<◌, length, drop};
ghost use Rattle.laws.specs.Decides.{Decides};
ghost use Rattle.words.specs.Words.{W};
ghost use Rattle.layout.specs.Code.{ok_n};
ghost use Rattle.layout.specs.Tables.{Tabled};
ghost use Rattle.layout.specs.Marked.{words_for};
ghost use Rattle.checks.specs.Entries.{seen_in, AsksSeen, InsertsSeen};

use crate::Compared;
use layout::{marked, rows};
use units::{LogIndex, Term};

// Compares an entry with the first seen under its index and term (on_write). Its payload is lent in words.
#[tactic(auto, using(layout::specs::SortedTables::found, crate::specs::EntryLaws::entry_asks))]
pub fn ask(
    s: &[u8],
    n: usize,
    p: usize,
    index: LogIndex,
    term: Term,
    content: &[u8],
) -> Compared<()>
    requires p_bound { p ≤ 256 }
    requires p_in_bounds { 8 * (n * (3 + words_for p)) ≤ length s.now }
    requires content_len { length content.now ≡ 8 * (1 + words_for p) }
    ensures { AsksSeen p index term content.now n result s.now }
{
    let w = 3 + (p + 7) / 8;
    match rows::find(s, n, w, (index.0, term.0)) {
        Ok(i) => {
            let at = rows::start_of(i, n, w);
            let a = 8 * (at + 2);
            let e = 8 * (at + w);
            if words::equal(&s[a..e], content) {
                Compared::Same
            } else {
                Compared::Other(())
            }
        }
        Err(_) => Compared::New,
    }
}

// One entry more, which is not there yet; there is room for it. Its payload is lent in words.
pub fn insert(s: &mut [u8], n: usize, p: usize, index: LogIndex, term: Term, content: &[u8])
    requires p_bound { p ≤ 256 }
    requires p_in_bounds { 8 * (n * (3 + words_for p) + (3 + words_for p)) ≤ length s.old }
    requires content_len { length content.now ≡ 8 * (1 + words_for p) }
    ensures { InsertsSeen p index term content.now n s.old s.new }
{
    let w = 3 + (p + 7) / 8;
    let i = rows::place(s, n, w, (index.0, term.0));
    let at = rows::start(i, n, w);
    rows::open_row(s, n, i, w);
    words::store_all(s, at, &[index.0, term.0]);
    words::copy_from(s, 8 * (at + 2), content);
}

// Whether a row is an entry at an index 1 to l with a payload of up to p bytes.
#[tactic(auto, using(crate::specs::EntryLaws::index_tests))]
fn check_entry(s: &[u8], l: u64, p: usize) -> bool
    requires { (p ≤ 256) × (length s.now ≡ 8 * (3 + words_for p)) }
    ensures { result ≡ (seen_in l p).row.ok (W s.now) }
{
    let index = words::load(s, 0);
    if index < 1 || l < index {
        return false;
    }
    let e = 8 * (3 + (p + 7) / 8);
    marked::check_payload(&s[16..e], p)
}

// Whether row k is such an entry.
fn row_ok(s: &[u8], n: usize, k: usize, l: u64, p: usize) -> bool
    requires { (p ≤ 256) × (k < n) × (8 * (n * (3 + words_for p)) ≤ length s.now) }
    ensures { result ≡ (seen_in l p).row.ok (drop (k * (3 + words_for p)) (W s.now)) }
{
    let w = 3 + (p + 7) / 8;
    let at = rows::start_of(k, n, w);
    let a = 8 * at;
    let e = 8 * (at + w);
    check_entry(&s[a..e], l, p)
}

// Whether each row is such an entry.
fn rows_ok(s: &[u8], n: usize, l: u64, p: usize) -> bool
    requires { (p ≤ 256) × (8 * (n * (3 + words_for p)) ≤ length s.now) }
    ensures { result ≡ ok_n (seen_in l p).row n (W s.now) }
{
    (0..n).all(|k| row_ok(s, n, k, l, p))
}

// Whether the bytes are a table of n entries seen in logs of l places, with payloads of up to p bytes.
#[tactic(auto, using(layout::specs::TableLaws::checks, crate::specs::EntryLaws::entries_rising))]
pub fn check(s: &[u8], n: usize, l: u64, p: usize) -> bool
    requires { p ≤ 256 }
    ensures { Decides result (Tabled (seen_in l p) n s.now) }
{
    let w = 3 + (p + 7) / 8;
    if !rows::padding(s, n, w) {
        return false;
    }
    if !rows_ok(s, n, l, p) {
        return false;
    }
    rows::rising::<(u64, u64)>(s, n, w)
}
