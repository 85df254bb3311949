// The answers to requests to confirm leadership (`confirmations` of simulation.rs): rows of 3 words, in order of arrival. The caller keeps
// the count n; a function that changes it answers the new one.
ghost use Rattle.std.specs.Prelude.{◌≡◌, ◌+◌, ◌*◌, ◌≤◌, ◌<◌, length, drop};
ghost use Rattle.laws.specs.Decides.{Decides};
ghost use Rattle.words.specs.Words.{W};
ghost use Rattle.layout.specs.Code.{ok_n};
ghost use Rattle.layout.specs.Tables.{Tabled};
ghost use Rattle.clients.specs.Confirmations.{confirmations, confirmation_code, index_in, numbers_of, tell_index, ReadsConfirmation, AppendsConfirmation};

use layout::rows;
use protocol::RequestId;
use units::LogIndex;

// The answer to a request: the read index, or none.
#[derive(Clone, Copy)]
pub struct Confirmation {
    pub request: RequestId,
    pub read_index: Option<LogIndex>,
}

// The words of a read index: 1 where there is one, and the index.
#[derive(Clone, Copy)]
struct Numbers {
    flag: u64,
    index: u64,
}

// ---- the read index

// Its words.
#[tactic(auto, unfolding(crate::specs::Confirmations::numbers_of))]
fn numbers_of(read_index: Option<LogIndex>) -> Numbers
    ensures { result ≡ numbers_of read_index }
{
    match read_index {
        None => Numbers { flag: 0, index: 0 },
        Some(index) => Numbers {
            flag: 1,
            index: index.0,
        },
    }
}

// The read index that two words tell.
#[tactic(auto, unfolding(crate::specs::Confirmations::index_in))]
fn index_in(flag: u64, index: u64) -> Option<LogIndex>
    ensures { result ≡ index_in flag index }
{
    (flag != 0).then_some(LogIndex(index))
}

// Whether two words are those of a read index, or of none.
#[tactic(auto, unfolding(crate::specs::Confirmations::tell_index))]
fn tell_index(flag: u64, index: u64) -> bool
    ensures { result ≡ tell_index flag index }
{
    if flag == 0 { index == 0 } else { flag == 1 }
}

// ---- rows

// Confirmation k of n.
#[tactic(auto, using(crate::specs::ConfirmationLaws::read_is))]
pub fn read(s: &[u8], n: usize, k: usize) -> Confirmation
    requires { (k < n) × (8 * (n * 3) ≤ length s.now) }
    ensures { ReadsConfirmation n k result s.now }
{
    let at = k * 3;
    let flag = words::load(s, at + 1);
    let read_index = index_in(flag, words::load(s, at + 2));
    Confirmation {
        request: RequestId(words::load(s, at)),
        read_index,
    }
}

// Keeps a confirmation after the n that there are, where there is room for so many, and answers the new count. None: there is no room for one
// more, and nothing changed. The region may be longer.
#[tactic(auto, using(crate::specs::ConfirmationLaws::appending))]
pub fn append(s: &mut [u8], n: usize, room: usize, confirmation: Confirmation) -> Option<usize>
    requires { 8 * (room * 3) ≤ length s.old }
    ensures { AppendsConfirmation confirmation n room result s.old s.new }
{
    if room <= n {
        return None;
    }
    let read_index = confirmation.read_index;
    let o = numbers_of(read_index);
    let row = [confirmation.request.0, o.flag, o.index];
    words::store_all(s, n * 3, &row);
    Some(n + 1)
}

// ---- the test of a region

// Whether row k is a confirmation.
#[tactic(auto, using(crate::specs::ConfirmationLaws::row_tested))]
fn row_ok(s: &[u8], n: usize, k: usize) -> bool
    requires { (k < n) × (8 * (n * 3) ≤ length s.now) }
    ensures { result ≡ confirmation_code.ok (drop (k * 3) (W s.now)) }
{
    let at = k * 3;
    let flag = words::load(s, at + 1);
    tell_index(flag, words::load(s, at + 2))
}

// Whether each row is a confirmation.
fn rows_ok(s: &[u8], n: usize) -> bool
    requires { 8 * (n * 3) ≤ length s.now }
    ensures { result ≡ ok_n confirmations.row n (W s.now) }
{
    (0..n).all(|k| row_ok(s, n, k))
}

// Whether the bytes are a table of n confirmations.
#[tactic(auto, using(layout::specs::TableLaws::checks))]
pub fn check(s: &[u8], n: usize) -> bool
    ensures { Decides result (Tabled confirmations n s.now) }
{
    rows::padding(s, n, 3) && rows_ok(s, n)
}
