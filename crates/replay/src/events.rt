// queue.bin: events pushed to one queue and taken from it, with their messages. The queue has room for 128 events with messages of up
// to 32 bytes, 11,264 bytes.
ghost use Rattle.std.specs.Prelude.{◌≤◌};

use queue::numbers::EventWords;
use queue::{Event, table};
use units::SimTime;

// The queue that the rows so far left.
#[derive(Drop)]
pub struct Events {
    area: [u8; 11264],
    count: usize,
    ghost room: { count ≤ 128 },
}

// The length of a row's message, at most 32.
fn message_length(row: &[u8; 104]) -> usize
    ensures { result ≤ 32 }
{
    words::load(row, 8).min(32) as usize
}

// The numbers of a row's event.
fn numbers(row: &[u8; 104]) -> EventWords {
    EventWords {
        kind: words::load(row, 3),
        a: words::load(row, 4),
        b: words::load(row, 5),
        c: words::load(row, 6),
        d: words::load(row, 7),
    }
}

// The event of a row, whatever its numbers: a timer's number above 1 is the heartbeat's, and the rest is read as `candidate` reads it.
fn event(row: &[u8; 104]) -> Event {
    let mut words = numbers(row);
    if words.kind == 2 {
        words.b = words.b.min(1);
    }
    queue::numbers::candidate(words)
}

impl Events {
    // A queue of no events.
    pub fn new() -> Events {
        Events {
            area: [0; 11264],
            count: 0,
        }
    }

    // A row's event pushed at its time with its message, where there is room.
    fn pushed(&mut self, row: &[u8; 104]) -> bool {
        if self.count == 128 {
            return false;
        }
        let end = 72 + message_length(row);
        let time = SimTime(words::load(row, 2));
        table::push(
            &mut self.area,
            self.count,
            32,
            time,
            event(row),
            &row[72..end],
        );
        self.count += 1;
        true
    }

    // Whether a row has the message of the earliest event, of so many bytes.
    fn message_told(&self, count: u64, row: &[u8; 104]) -> bool {
        if 32 < count {
            return false;
        }
        let mut message = [0u8; 32];
        table::first_message(&self.area, count as usize, &mut message);
        (count == words::load(row, 8)) & (message[..] == row[72..104])
    }

    // Whether a row has the earliest event.
    fn first_told(&self, row: &[u8; 104]) -> bool {
        let first = table::first(&self.area);
        (words::load(row, 1) == 1)
            & (first.time.0 == words::load(row, 2))
            & (EventWords::from(first.event) == numbers(row))
            & self.message_told(first.length, row)
    }

    // The earliest event taken, if there is one.
    fn taken(&mut self, row: &[u8; 104]) -> bool {
        if self.count == 0 {
            return words::all_zero(&row[8..104]);
        }
        let same = self.first_told(row);
        table::remove_first(&mut self.area, self.count, 32);
        self.count -= 1;
        same
    }

    // A row of queue.bin: 0, 1, time, event pushes; 1, 1, time, event takes it; 1 and zeros finds none.
    pub fn agrees(&mut self, row: &[u8; 104]) -> bool {
        if words::load(row, 0) == 0 {
            self.pushed(row)
        } else {
            self.taken(row)
        }
    }
}
