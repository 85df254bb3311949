// Bytes of one slice: numbers of 32 and 64 bits, the lowest byte first; 64-bit words by their index; runs that are filled, copied,
// moved and compared.
//
// Every function that writes says what it leaves as ONE run of stores, `sets entry at bytes` (lib.Seq), so that one set of laws
// (specs/Sets.antt) serves them all, and one law (`sets_bytes` of specs/Lift.antt) makes a run of bytes a run of words.
#![tactic(auto)]

ghost use Rattle.std.specs.Prelude.{◌≡◌, ◌+◌, ◌-◌, ◌*◌, ◌^◌, ◌≤◌, ◌<◌, length, get_or, take, drop, replicate};
ghost use Rattle.std.proofs.lemmas.List.Edits.{sets};
ghost use Rattle.laws.specs.Decides.{Decides};
ghost use Rattle.words.specs.Words.{le_at, bytes_of, bytes, W, allz};

// ---- numbers at a byte offset. (d) The two widths are no generic function: each is one call of its own type's method.

// The number in the four bytes from `at`.
pub fn get32(s: &[u8], at: usize) -> u64
    requires { at + 4 ≤ length s.now }
    ensures { (result ≡ le_at 4 s.now at) × (result < 2 ^ 32) }
{
    u32::from_le_bytes(s[at..at + 4].try_into().unwrap()) as u64
}

// The number in the eight bytes from `at`.
pub fn get64(s: &[u8], at: usize) -> u64
    requires { at + 8 ≤ length s.now }
    ensures { result ≡ le_at 8 s.now at }
{
    u64::from_le_bytes(s[at..at + 8].try_into().unwrap())
}

// Writes the four lowest bytes of v from `at` on.
pub fn put32(s: &mut [u8], at: usize, v: u64)
    requires { at + 4 ≤ length s.old }
    ensures { s.new ≡ sets s.old at (bytes_of 4 v) }
{
    s[at..at + 4].copy_from_slice(&v.to_le_bytes()[..4]);
}

// Writes the eight bytes of v from `at` on.
pub fn put64(s: &mut [u8], at: usize, v: u64)
    requires { at + 8 ≤ length s.old }
    ensures { s.new ≡ sets s.old at (bytes_of 8 v) }
{
    s[at..at + 8].copy_from_slice(&v.to_le_bytes());
}

// ---- words by their index

// Word i of s.
pub fn load(s: &[u8], i: usize) -> u64
    requires { 8 * i + 8 ≤ length s.now }
    ensures { result ≡ get_or (W s.now) i 0 }
{
    get64(s, 8 * i)
}

// Word i of s becomes v.
pub fn store(s: &mut [u8], i: usize, v: u64)
    requires { 8 * i + 8 ≤ length s.old }
    ensures { s.new ≡ sets s.old (8 * i) (bytes_of 8 v) }
{
    put64(s, 8 * i, v);
}

// The words of s from word i on become those of vs: a row of a table in one call.
pub fn store_all(s: &mut [u8], i: usize, vs: &[u64])
    requires { 8 * (i + length vs.now) ≤ length s.old }
    ensures { s.new ≡ sets s.old (8 * i) (bytes vs.now) }
{
    for (k, v) in vs.iter().enumerate() {
        store(s, i + k, *v);
    }
}

// ---- runs of bytes

// Makes the bytes from `from` up to, not including, `to` zero.
pub fn fill_zero(s: &mut [u8], from: usize, to: usize)
    requires { (from ≤ to) × (to ≤ length s.old) }
    ensures { s.new ≡ sets s.old from (replicate (to - from) 0) }
{
    s[from..to].fill(0);
}

// Copies src into dst from `at` on.
pub fn copy_from(dst: &mut [u8], at: usize, src: &[u8])
    requires { at + length src.now ≤ length dst.old }
    ensures { dst.new ≡ sets dst.old at src.now }
{
    for (k, byte) in src.iter().enumerate() {
        dst[at + k] = *byte;
    }
}

// Moves the bytes from `at` up to `end` to w places further on. What stands from at to at + w is as it was. So it also copies a part of a
// slice to a later place in it, and close_gap to an earlier one.
pub fn open_gap(s: &mut [u8], at: usize, end: usize, w: usize)
    requires { (at ≤ end) × (end + w ≤ length s.old) }
    ensures { s.new ≡ sets s.old (at + w) (take (end - at) (drop at s.old)) }
{
    for k in (at..end).rev() {
        s[k + w] = s[k];
    }
}

// Moves the bytes from at + w up to `end` to `at`. What stands in the last w places before end is as it was.
pub fn close_gap(s: &mut [u8], at: usize, end: usize, w: usize)
    requires { (at + w ≤ end) × (end ≤ length s.old) }
    ensures { s.new ≡ sets s.old at (take (end - (at + w)) (drop (at + w) s.old)) }
{
    let from = at + w;
    let n = end - from;
    for k in 0..n {
        s[at + k] = s[from + k];
    }
}

// ---- tests

// The or of all bytes is 0. There is no exit, so that many bytes are looked at in one step.
fn none_set(s: &[u8]) -> bool
    ensures { result ≡ allz s.now }
{
    s.iter().fold(0, |acc, byte| acc | *byte) == 0
}

// Are all bytes zero? (b) Chunk by chunk: a test that may end at each byte takes 38 times as long.
pub fn all_zero(s: &[u8]) -> bool
    ensures { result ≡ allz s.now }
{
    let (chunks, rest) = s.as_chunks::<1024>();
    chunks.iter().all(|chunk| none_set(chunk)) && none_set(rest)
}

// Are the words from word `from` up to, not including, word `to` zero?
pub fn zero_words(s: &[u8], from: usize, to: usize) -> bool
    requires { (from ≤ to) × (8 * to ≤ length s.now) }
    ensures { result ≡ allz (take (to - from) (drop from (W s.now))) }
{
    all_zero(&s[8 * from..8 * to])
}

// Are the two slices equal?
pub fn equal(a: &[u8], b: &[u8]) -> bool
    ensures { Decides result (a.now ≡ b.now) }
{
    a == b
}
