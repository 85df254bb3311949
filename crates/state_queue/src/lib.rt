// The event queue of the state that an area holds, read and written in place.
#![tactic(auto)]

ghost use Rattle.std.specs.Prelude.{◌≤◌, ◌<◌, length};
ghost use Rattle.state.specs.Changes.{Inside, Changes, Reads};
ghost use Rattle.state_queue.specs.Events.{
  queue_length,
  queue_room,
  next_event,
  CopiesMessage,
  dequeued,
  pushed,
  plain,
  first_sent,
  spread_started,
};

use queue::table::Earliest;
use queue::{Event, table};
use rng::Rng;
use state::{Capacity, sizes};
use units::SimTime;

// ---- what is read

// How many events the queue has.
pub fn queue_count(area: &[u8], f: Capacity) -> u64
    requires { Inside area.now f }
    ensures { Reads area.now f result queue_length }
{
    words::load(&area[664..728], 0)
}

// Whether so many events more have room.
pub fn queue_room(area: &[u8], f: Capacity, more: u64) -> bool
    requires { Inside area.now f }
    ensures { Reads area.now f result (queue_room more) }
{
    let limits = f.limits;
    let n = queue_count(area, f);
    if limits.events < n {
        return false;
    }
    more <= limits.events - n
}

// The first event, with its time and the length of its message.
pub fn first_event(area: &[u8], f: Capacity) -> Option<Earliest>
    requires { Inside area.now f }
    ensures { Reads area.now f result next_event }
{
    if queue_count(area, f) == 0 {
        return None;
    }
    let at = sizes::queue_at(f);
    let w = sizes::queue_words(f);
    let a = 8 * at;
    let e = 8 * (at + w);
    Some(table::first(&area[a..e]))
}

// Copies the message of the first event to the front of a buffer; count is the length that `first_event` gave.
pub fn first_message(area: &[u8], f: Capacity, count: usize, buffer: &mut [u8])
    requires inside { Inside area.now f }
    requires count_le_message { (count ≤ f.limits.message) × (count ≤ length buffer.old) }
    ensures { CopiesMessage area.now f count buffer.old buffer.new }
{
    let at = sizes::queue_at(f);
    let w = sizes::queue_words(f);
    let a = 8 * at;
    let e = 8 * (at + w);
    table::first_message(&area[a..e], count, buffer);
}

// ---- what is changed

// Takes the first event out, if there is one.
pub fn take_event(area: &mut [u8], f: Capacity)
    requires { Inside area.old f }
    ensures { Changes area.old area.new f dequeued }
{
    let limits = f.limits;
    let n = queue_count(area, f);
    if n == 0 {
        return;
    }
    if limits.events < n {
        return;
    }
    let at = sizes::queue_at(f);
    let w = sizes::queue_words(f);
    let a = 8 * at;
    let e = 8 * (at + w);
    table::remove_first(&mut area[a..e], n as usize, limits.message as usize);
    words::store(area, 83, n - 1);
}

// One event more, where there is room for it.
pub fn push_event(area: &mut [u8], f: Capacity, time: SimTime, event: Event, message: &[u8])
    requires inside { Inside area.old f }
    requires message_len_bound { length message.now ≤ f.limits.message }
    ensures { Changes area.old area.new f (pushed (record { time = time; event = event; message = message.now })) }
{
    let limits = f.limits;
    let n = queue_count(area, f);
    if limits.events <= n {
        return;
    }
    let at = sizes::queue_at(f);
    let w = sizes::queue_words(f);
    let a = 8 * at;
    let e = 8 * (at + w);
    table::push(
        &mut area[a..e],
        n as usize,
        limits.message as usize,
        time,
        event,
        message,
    );
    words::store(area, 83, n + 1);
}

// One event more that delivers no message, where there is room for it.
pub fn push_plain(area: &mut [u8], f: Capacity, time: SimTime, event: Event)
    requires { Inside area.old f }
    ensures { Changes area.old area.new f (pushed (plain time event)) }
{
    push_event(area, f, time, event, &[]);
}

// The first event of each client, where there is room for all.
pub fn push_first_sends(area: &mut [u8], f: Capacity)
    requires { Inside area.old f }
    ensures { Changes area.old area.new f first_sent }
{
    let run = state_header::run_of(area, f);
    let now = run.now;
    for c in 0..f.clients {
        push_plain(area, f, now, Event::ClientSend { client: c });
    }
}

// A Start event for each server, at times drawn below a spread, where there is room for all.
pub fn push_spread_starts(area: &mut [u8], f: Capacity, spread: u64, g: Rng)
    requires inside { Inside area.old f }
    requires spread_nonzero { 0 < spread }
    ensures { Changes area.old area.new f (spread_started spread g) }
{
    let mut next = g;
    for slot in 0..f.servers {
        let d = next.drawn_under(spread);
        push_plain(area, f, SimTime(d.value), Event::Start { slot });
        next = d.next;
    }
}
