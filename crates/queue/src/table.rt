// The queue as a table: rows of 7 + ⌈m/8⌉ words, sorted by time, equal times in the order of their pushes, where m is the greatest length of
// a message. The caller keeps the count n.
ghost use Rattle.std.specs.Prelude.{◌≡◌, ◌+◌, ◌-◌, ◌*◌, ◌≤◌, ◌<◌, length};
ghost use Rattle.laws.specs.Decides.{Decides};
ghost use Rattle.words.specs.Words.{W};
ghost use Rattle.layout.specs.Code.{ok_n};
ghost use Rattle.layout.specs.Tables.{Tabled};
ghost use Rattle.layout.specs.Marked.{words_for};
ghost use Rattle.queue.specs.RowLaws.{event_row};
ghost use Rattle.queue.specs.Table.{events, numbers_in, PutsRow, Pushes, Removes, GivesFirst, Copies};

use crate::Event;
use crate::numbers::{EventWords, candidate};
use crate::range::Ranges;
use layout::{marked, rows};
use units::SimTime;

// Writes a row.
fn put_row(s: &mut [u8], time: SimTime, event: Event, message: &[u8])
    requires { 56 + length message.now ≤ length s.old }
    ensures { PutsRow (record { time = time; event = event; message = message.now }) s.old s.new }
{
    let w = EventWords::from(event);
    let end = s.len();
    words::store_all(s, 0, &[time.0, w.kind, w.a, w.b, w.c, w.d]);
    marked::put_message(&mut s[48..end], message);
}

// One event more.
#[tactic(auto, using(crate::specs::TableLaws::pushed))]
pub fn push(s: &mut [u8], n: usize, m: usize, time: SimTime, event: Event, message: &[u8])
    requires { (m ≤ 4096) × (8 * (n * (7 + words_for m) + (7 + words_for m)) ≤ length s.old) × (length message.now ≤ m) }
    ensures { Pushes (record { time = time; event = event; message = message.now }) m n s.old s.new }
{
    let w = 7 + (m + 7) / 8;
    let i = rows::last_place(s, n, w, time.0);
    let at = rows::start(i, n, w);
    rows::open_row(s, n, i, w);
    let a = 8 * at;
    let e = 8 * (at + w);
    put_row(&mut s[a..e], time, event, message);
}

// The numbers of the event of a row.
fn numbers_in(s: &[u8]) -> EventWords
    requires { 48 ≤ length s.now }
    ensures { result ≡ numbers_in (W s.now) }
{
    EventWords {
        kind: words::load(s, 1),
        a: words::load(s, 2),
        b: words::load(s, 3),
        c: words::load(s, 4),
        d: words::load(s, 5),
    }
}

// The earliest event, and the length of its message.
#[derive(Clone, Copy)]
pub struct Earliest {
    pub time: SimTime,
    pub event: Event,
    pub length: u64,
}

// Reads the earliest event.
#[tactic(auto, using(crate::specs::TableLaws::first_given))]
pub fn first(s: &[u8]) -> Earliest
    requires { 56 ≤ length s.now }
    ensures { GivesFirst result s.now }
{
    Earliest {
        time: SimTime(words::load(s, 0)),
        event: candidate(numbers_in(s)),
        length: words::load(s, 6),
    }
}

// Copies the message of the earliest event to the front of a buffer; count is the length that `first` gave.
#[tactic(auto, using(crate::specs::TableLaws::first_copied))]
pub fn first_message(s: &[u8], count: usize, buffer: &mut [u8])
    requires { (56 + count ≤ length s.now) × (count ≤ length buffer.old) }
    ensures { Copies count s.now buffer.old buffer.new }
{
    let end = 56 + count;
    words::copy_from(buffer, 0, &s[56..end]);
}

// The earliest event is taken out.
#[tactic(auto, using(crate::specs::TableLaws::first_removed))]
pub fn remove_first(s: &mut [u8], n: usize, m: usize)
    requires { (m ≤ 4096) × (0 < n) × (8 * (n * (7 + words_for m)) ≤ length s.old) }
    ensures { Removes m n s.old s.new }
{
    let w = 7 + (m + 7) / 8;
    rows::remove_row(s, n, 0, w);
}

// Whether a row is that of an event in range.
fn check_row(s: &[u8], ranges: Ranges) -> bool
    requires { length s.now ≡ 8 * (7 + words_for ranges.message) }
    ensures { result ≡ (event_row ranges.servers ranges.clients ranges.indexes ranges.message).ok (W s.now) }
{
    let end = s.len();
    let length = words::load(s, 6) as usize;
    let padded = marked::check_message(&s[48..end], ranges.message);
    match Event::try_from(numbers_in(s)) {
        Err(()) => false,
        Ok(event) => padded & ranges.in_range(event) & (length <= ranges.message_room(event)),
    }
}

// Whether each row is that of an event in range.
fn check_rows(s: &[u8], n: usize, ranges: Ranges) -> bool
    requires { (ranges.message ≤ 4096) × (8 * (n * (7 + words_for ranges.message)) ≤ length s.now) }
    ensures { result ≡ ok_n (event_row ranges.servers ranges.clients ranges.indexes ranges.message) n (W s.now) }
{
    let w = 7 + (ranges.message + 7) / 8;
    for i in 0..n {
        let at = rows::start_of(i, n, w);
        if !check_row(&s[8 * at..8 * (at + w)], ranges) {
            return false;
        }
    }
    true
}

// Whether the bytes are a queue of n events in range.
pub fn check(s: &[u8], n: usize, ranges: Ranges) -> bool
    requires { ranges.message ≤ 4096 }
    ensures { Decides result (Tabled (events ranges.servers ranges.clients ranges.indexes ranges.message) n s.now) }
{
    let w = 7 + (ranges.message + 7) / 8;
    if !rows::padding(s, n, w) {
        return false;
    }
    if !check_rows(s, n, ranges) {
        return false;
    }
    rows::sorted::<u64>(s, n, w)
}
