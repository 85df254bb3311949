// A table of n rows of w words in a slice of bytes, for any row type: where a row starts, the moves that make room for a row and that
// take one out, the place of a key that stands in the first words of a row, and the tests of order and padding. The caller
// keeps n. Every word after the rows is zero.
// (d) The bytes, n and w are no struct: nearly every caller makes one call with them, and would build it for that one.
ghost use Rattle.std.specs.Prelude.{◌≡◌, List, ℕ, ◌+◌, ◌*◌, ◌/◌, ◌^◌, ◌≤◌, ◌<◌, length, drop};
ghost use Rattle.words.specs.Words.{W};
ghost use Rattle.layout.specs.Tables.{opened, removed, padded};
ghost use Rattle.laws.specs.Order.{Order, numbers, pairs, rising, sorted};
ghost use Rattle.layout.specs.Order.{place, last_place, find, one, two, heads};

// The word at which row i starts, for i up to n. A product of two unknowns is beyond `omega`; what a caller wants of it comes with the call.
pub fn start(i: usize, n: usize, w: usize) -> usize
    requires { (i ≤ n) × (n * w < 2 ^ 64) }
    ensures { (result ≡ i * w) × (result ≤ n * w) }
{
    i * w
}

// The same for a row that is there: it ends by the end of the n rows. (d) In one function that would stand under a condition.
pub fn start_of(i: usize, n: usize, w: usize) -> usize
    requires { (i < n) × (n * w < 2 ^ 64) }
    ensures { (result ≡ i * w) × (result + w ≤ n * w) }
{
    i * w
}

// The word at which n rows end that have room in `all` words.
fn end_of(n: usize, w: usize, all: usize) -> usize
    requires { (0 < w) × (n ≤ all / w) }
    ensures { (result ≡ n * w) × (result ≤ all) }
{
    n * w
}

// ---- moves

// Makes room for a row before row i.
pub fn open_row(s: &mut [u8], n: usize, i: usize, w: usize)
    requires { (i ≤ n) × (8 * (n * w + w) ≤ length s.old) }
    ensures { s.new ≡ opened w n i s.old }
{
    let at = start(i, n, w);
    let end = n * w;
    words::open_gap(s, 8 * at, 8 * end, 8 * w);
}

// Takes row i out, and leaves zeros in the place of the last.
pub fn remove_row(s: &mut [u8], n: usize, i: usize, w: usize)
    requires { (i < n) × (8 * (n * w) ≤ length s.old) }
    ensures { s.new ≡ removed w n i s.old }
{
    let at = start_of(i, n, w);
    let end = 8 * (n * w);
    words::close_gap(s, 8 * at, end, 8 * w);
    words::fill_zero(s, end - 8 * w, end);
}

// Whether the bytes are whole words with room for n rows, and zero after them.
pub fn padding(s: &[u8], n: usize, w: usize) -> bool
    requires { 0 < w }
    ensures { result ≡ padded w n s.now }
{
    let all = s.len() / 8;
    if s.len() % 8 != 0 {
        return false;
    }
    if all / w < n {
        return false;
    }
    words::zero_words(s, end_of(n, w, all), all)
}

// ---- keys

// What stands in the first words of a row, and its order.
pub trait Key: Copy {
    // How many words it takes.
    ghost words: { ℕ };

    // The key with which the words of a row begin.
    ghost head: { List ℕ → Self };

    // The order of keys.
    ghost order: { Order Self };

    // The key of the row that starts at word `at`.
    fn read(s: &[u8], at: usize) -> Self
        requires { 8 * (at + words) ≤ length s.now }
        ensures { result ≡ head (drop at (W s.now)) };

    // Whether it stands before another.
    fn before(self, other: Self) -> bool
        ensures { result ≡ order.before self other };
}

impl Key for u64 {
    ghost words = { 1 };

    ghost head = { one };

    ghost order = { numbers };

    fn read(s: &[u8], at: usize) -> u64 {
        words::load(s, at)
    }

    fn before(self, other: u64) -> bool {
        self < other
    }
}

impl Key for (u64, u64) {
    ghost words = { 2 };

    ghost head = { two };

    ghost order = { pairs };

    fn read(s: &[u8], at: usize) -> (u64, u64) {
        (words::load(s, at), words::load(s, at + 1))
    }

    // (b) The `<` of tuples takes up to twice as long: LLVM then looks at both words of every row.
    fn before(self, other: (u64, u64)) -> bool {
        if self.0 < other.0 {
            true
        } else if other.0 < self.0 {
            false
        } else {
            self.1 < other.1
        }
    }
}

// The key of row i.
fn key_at<K: Key>(s: &[u8], n: usize, w: usize, i: usize) -> K
    requires { (i < n) × (K.words ≤ w) × (8 * (n * w) ≤ length s.now) }
    ensures { result ≡ K.head (drop (i * w) (W s.now)) }
{
    K::read(s, start_of(i, n, w))
}

// The place of a key: before the first row whose key is not below it.
pub fn place<K: Key>(s: &[u8], n: usize, w: usize, k: K) -> usize
    requires { (K.words ≤ w) × (8 * (n * w) ≤ length s.now) }
    ensures { (result ≡ place K.order k (heads K.head w n (W s.now))) × (result ≤ n) }
{
    (0..n)
        .position(|i| !key_at::<K>(s, n, w, i).before(k))
        .unwrap_or(n)
}

// The last place of a key: before the first row whose key is above it.
pub fn last_place<K: Key>(s: &[u8], n: usize, w: usize, k: K) -> usize
    requires { (K.words ≤ w) × (8 * (n * w) ≤ length s.now) }
    ensures { (result ≡ last_place K.order k (heads K.head w n (W s.now))) × (result ≤ n) }
{
    (0..n)
        .position(|i| k.before(key_at(s, n, w, i)))
        .unwrap_or(n)
}

// Looks for a key among rows that rise: where it is, or where it would be.
pub fn find<K: Key>(s: &[u8], n: usize, w: usize, k: K) -> Result<usize, usize>
    requires { (K.words ≤ w) × (8 * (n * w) ≤ length s.now) }
    ensures { result ≡ find K.order k (heads K.head w n (W s.now)) }
{
    let i = place(s, n, w, k);
    if n <= i {
        return Err(i);
    }
    if k.before(key_at(s, n, w, i)) {
        Err(i)
    } else {
        Ok(i)
    }
}

// ---- order

// Whether the keys rise from row to row.
pub fn rising<K: Key>(s: &[u8], n: usize, w: usize) -> bool
    requires { (K.words ≤ w) × (8 * (n * w) ≤ length s.now) }
    ensures { result ≡ rising K.order (heads K.head w n (W s.now)) }
{
    (0..n)
        .map(|i| key_at::<K>(s, n, w, i))
        .is_sorted_by(|a, b| a.before(*b))
}

// Whether the keys never fall from row to row.
pub fn sorted<K: Key>(s: &[u8], n: usize, w: usize) -> bool
    requires { (K.words ≤ w) × (8 * (n * w) ≤ length s.now) }
    ensures { result ≡ sorted K.order (heads K.head w n (W s.now)) }
{
    (0..n)
        .map(|i| key_at::<K>(s, n, w, i))
        .is_sorted_by(|a, b| !b.before(*a))
}
