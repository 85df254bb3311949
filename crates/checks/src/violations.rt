// The violations that are kept (`violations` of checks.rs): rows of 8 words, in the order in which they were reported, the first 32 of all.
// The caller keeps how many are kept, and how many there were.
ghost use Rattle.std.specs.Prelude.{◌≡◌, ◌+◌, ◌*◌, ◌≤◌, ◌<◌, length, get_or, take, drop};
ghost use Rattle.laws.specs.Decides.{Decides};
ghost use Rattle.words.specs.Words.{W};
ghost use Rattle.layout.specs.Code.{ok_n};
ghost use Rattle.layout.specs.Tables.{Tabled, Gives};
ghost use Rattle.checks.specs.Outcomes.{one_if};
ghost use Rattle.checks.specs.Violations.{violation_row, violations, given, no_violation, Keeps, Reports};

use crate::Check;
use layout::rows;
use units::SimTime;

// A violation: when it was seen, the check's number, how many numbers its text has, and these; those that are not there are zero.
#[derive(Clone, Copy)]
pub struct Violation {
    pub time: SimTime,
    pub check: u64,
    pub count: u64,
    pub numbers: [u64; 5],
}

// How many violations are kept, and how many there were.
#[derive(Clone, Copy)]
pub struct Tally {
    pub kept: usize,
    pub total: u64,
}

// One where a violation is due: reports are counted before any is kept.
pub fn one_if(due: bool) -> u64
    ensures { (result ≡ one_if due) × (result ≤ 1) }
{
    u64::from(due)
}

// Keeps a violation that is due, while fewer than 32 are kept, and answers how many are. The first five of `detail` are the numbers of its
// text, in its order.
pub fn keep(
    s: &mut [u8],
    kept: usize,
    due: bool,
    time: SimTime,
    check: Check,
    detail: &[u64],
) -> usize
    requires room { 2048 ≤ length s.old }
    ensures { Keeps due time check (take 5 detail.now) kept result s.old s.new }
{
    if !due || 32 <= kept {
        return kept;
    }
    let at = kept * 8;
    let numbers = detail.len().min(5);
    words::store_all(s, at, &[time.0, u64::from(check), numbers as u64]);
    words::store_all(s, at + 3, &detail[..numbers]);
    words::fill_zero(s, 8 * (at + 3 + numbers), 8 * (at + 8));
    kept + 1
}

// Counts a violation, and keeps it while fewer than 32 are kept (report). None: the total has no 64 bits, and nothing changed.
#[tactic(auto, unfolding(crate::specs::Violations::tally))]
pub fn report(
    s: &mut [u8],
    kept: usize,
    total: u64,
    time: SimTime,
    check: Check,
    detail: &[u64],
) -> Option<Tally>
    requires room { 2048 ≤ length s.old }
    ensures { Reports time check (take 5 detail.now) kept total result s.old s.new }
{
    let total = total.checked_add(1)?;
    let kept = keep(s, kept, true, time, check, detail);
    Some(Tally { kept, total })
}

// Violation k of n.
pub fn read(s: &[u8], n: usize, k: usize) -> Violation
    requires { (k < n) × (8 * (n * 8) ≤ length s.now) }
    ensures { Gives violations n s.now result (λ x. given (get_or x k no_violation)) }
{
    let at = k * 8;
    Violation {
        time: SimTime(words::load(s, at)),
        check: words::load(s, at + 1),
        count: words::load(s, at + 2),
        numbers: [
            words::load(s, at + 3),
            words::load(s, at + 4),
            words::load(s, at + 5),
            words::load(s, at + 6),
            words::load(s, at + 7),
        ],
    }
}

// Whether row k is a violation: of one of the checks, with up to five numbers, and zeros behind them.
#[tactic(auto, using(crate::specs::ViolationLaws::violation_rows))]
fn row_ok(s: &[u8], n: usize, k: usize) -> bool
    requires { (k < n) × (8 * (n * 8) ≤ length s.now) }
    ensures { result ≡ violation_row.ok (drop (k * 8) (W s.now)) }
{
    let from = k * 8;
    let count = words::load(s, from + 2);
    if 8 <= words::load(s, from + 1) || 5 < count {
        return false;
    }
    words::zero_words(s, from + 3 + count as usize, from + 8)
}

// Whether each row is a violation.
fn rows_ok(s: &[u8], n: usize) -> bool
    requires { 8 * (n * 8) ≤ length s.now }
    ensures { result ≡ ok_n violation_row n (W s.now) }
{
    (0..n).all(|k| row_ok(s, n, k))
}

// Whether the bytes are a table of n violations, at most 32.
#[tactic(auto, using(layout::specs::TableLaws::checks, crate::specs::ViolationLaws::at_most))]
pub fn check(s: &[u8], n: usize) -> bool
    ensures { Decides result (Tabled violations n s.now) }
{
    if !rows::padding(s, n, 8) {
        return false;
    }
    if !rows_ok(s, n) {
        return false;
    }
    n <= 32
}
