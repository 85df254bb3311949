// log_matching.bin: two logs, and how they break log matching. A log has 8 places, 192 bytes; a command has one byte.
ghost use Rattle.std.specs.Prelude.{◌≡◌, ◌<◌, length};

use checks::Mismatch;
use units::{LogIndex, PayloadRef, Term};

// Puts what word k says: 0 is no entry, else it is 256 × term + the one byte of a command.
fn put_place(log: &mut [u8; 192], places: &[u8], k: usize)
    requires { (k < 8) × (length places.now ≡ 64) }
{
    let word = words::load(places, k);
    if word == 0 {
        return;
    }
    let index = LogIndex(k as u64 + 1);
    let from = 8 * k;
    let to = from + 1;
    raft_log::put(
        log,
        8,
        1,
        index,
        Term(word / 256),
        PayloadRef::Command(&places[from..to]),
    );
}

// The log of what eight words say.
fn log_of(places: &[u8]) -> [u8; 192]
    requires { length places.now ≡ 64 }
{
    let mut log = [0u8; 192];
    for k in 0..8 {
        put_place(&mut log, places, k);
    }
    log
}

// Whether a row tells a mismatch, or that there is none: 1 where there is one, its term, its index, the index of the difference.
fn told(found: Option<Mismatch>, row: &[u8; 160]) -> bool {
    match found {
        None => words::zero_words(row, 16, 20),
        Some(m) => (words::load(row, 16) == 1)
            & (words::load(row, 17) == m.term.0)
            & (words::load(row, 18) == m.index.0)
            & (words::load(row, 19) == m.difference.0),
    }
}

// The places of one log, those of the other, and their mismatch.
pub fn agrees(row: &[u8; 160]) -> bool {
    let one = log_of(&row[0..64]);
    let other = log_of(&row[64..128]);
    told(
        checks_log_matching::log_matching_failure(&one, &other, 8, 1),
        row,
    )
}
