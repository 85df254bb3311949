// What a sync does with the m waiting writes of a disk: the sum of their records' lengths, and the replay onto the durable log and a hard state.
ghost use Rattle.std.specs.Prelude.{◌≡◌, ◌+◌, ◌*◌, ◌^◌, ◌≤◌, ◌<◌, length};
ghost use Rattle.units.specs.Types.{payload_behind, command_length};
ghost use Rattle.layout.specs.Marked.{words_for};
ghost use Rattle.layout.specs.Payload.{body_of};
ghost use Rattle.raft_log.specs.Places.{put_entry};
ghost use Rattle.storage.specs.Waiting.{length_of};
ghost use Rattle.storage.specs.Stores.{disk_bytes};
ghost use Rattle.storage.specs.Replay.{Sizes, Sums, entry_at, ReadsCommand, truncate_from, Changes, Tells, Applies, Replays};

use crate::waiting::Shape;
use crate::{HardState, waiting};
use layout::rows;
use raft_log::EntryShape;
use units::{LogIndex, PayloadRef, PayloadShape, Term};

// ---- the bytes of the records

// The length of the record of a write.
fn record_bytes(shape: Shape) -> u64
    requires { length_of shape ≤ 256 }
    ensures { Sizes shape result }
{
    match shape {
        Shape::HardState(state) => record::hard_state_bytes(state.term, state.voted_for),
        Shape::Put { index, entry } => record::put_bytes(index, entry.term, entry.payload),
        Shape::Truncate(from) => record::truncate_bytes(from),
    }
}

// The bytes of the waiting writes in s.
pub fn unsynced_bytes(s: &[u8], m: usize, p: usize) -> u64
    requires { (m ≤ 2 ^ 32) × (p ≤ 256) × (8 * (m * (3 + words_for p)) ≤ length s.now) }
    ensures { Sums p m result s.now }
{
    let mut total: u64 = 0;
    for i in 0..m {
        let shape = waiting::write_at(s, m, p, i);
        total += record_bytes(shape);
    }
    total
}

// ---- a change of the durable log

// Puts an entry at any index: outside the log it changes nothing.
fn put(
    disk: &mut [u8],
    places: usize,
    rows: usize,
    p: usize,
    index: LogIndex,
    term: Term,
    payload: PayloadRef<'_>,
)
    requires p_bound { (p ≤ 256) × (length disk.old ≡ disk_bytes p places rows) }
    requires payload_bound { length (body_of (payload_behind payload)) ≤ p }
    ensures { Changes p places rows disk.old disk.new (put_entry index.0 (record { term = term; payload = payload_behind payload.entry })) }
{
    let i = index.0 as usize;
    if i < 1 {
        return;
    }
    if places < i {
        return;
    }
    let logs = rows::start(places, places, 2 + (p + 7) / 8);
    let from = 8 * logs;
    let to = 16 * logs;
    raft_log::put(&mut disk[from..to], places, p, index, term, payload);
}

// The bytes of the command of write k go to the front of a buffer.
fn read_command(
    disk: &[u8],
    places: usize,
    rows: usize,
    p: usize,
    k: usize,
    bytes: usize,
    buffer: &mut [u8],
)
    requires { (p ≤ 256) × (length disk.now ≡ disk_bytes p places rows) × (k < rows) × (bytes ≤ p) × (256 ≤ length buffer.old) }
    ensures { ReadsCommand p places k bytes disk.now buffer.new }
{
    let logs = rows::start(places, places, 2 + (p + 7) / 8);
    let at = rows::start_of(k, rows, 3 + (p + 7) / 8);
    let from = 16 * logs + 8 * (at + 1);
    let to = from + bytes;
    words::copy_from(buffer, 0, &disk[from..to]);
}

// Puts the entry of write k, which has this shape.
fn put_waiting(
    disk: &mut [u8],
    places: usize,
    rows: usize,
    p: usize,
    k: usize,
    index: LogIndex,
    entry: EntryShape,
)
    requires p_bound { (p ≤ 256) × (length disk.old ≡ disk_bytes p places rows) × (k < rows) }
    requires payload_bound { command_length entry.payload ≤ p }
    ensures { Changes p places rows disk.old disk.new (put_entry index.0 (entry_at p places k entry disk.old)) }
{
    let term = entry.term;
    match entry.payload {
        PayloadShape::Noop => put(disk, places, rows, p, index, term, PayloadRef::Noop),
        PayloadShape::Command { length } => {
            let mut buffer = [0u8; 256];
            read_command(disk, places, rows, p, k, length, &mut buffer);
            let payload = PayloadRef::Command(&buffer[..length]);
            put(disk, places, rows, p, index, term, payload);
        }
    }
}

// Removes every entry at `from` or later.
fn truncate(disk: &mut [u8], places: usize, rows: usize, p: usize, from: LogIndex)
    requires { (p ≤ 256) × (length disk.old ≡ disk_bytes p places rows) }
    ensures { Changes p places rows disk.old disk.new (truncate_from from.0) }
{
    let logs = rows::start(places, places, 2 + (p + 7) / 8);
    let a = 8 * logs;
    let e = 16 * logs;
    raft_log::truncate(&mut disk[a..e], places, p, from);
}

// ---- the replay

// Write k, without the bytes of its command.
fn write_at(disk: &[u8], places: usize, rows: usize, p: usize, m: usize, k: usize) -> Shape
    requires { (p ≤ 256) × (length disk.now ≡ disk_bytes p places rows) × (m ≤ rows) × (k < m) }
    ensures { Tells p places rows m k result disk.now }
{
    let logs = rows::start(places, places, 2 + (p + 7) / 8);
    let from = 16 * logs;
    waiting::write_at(&disk[from..], m, p, k)
}

// Write k made on the durable log and a hard state (State::apply).
fn apply(
    disk: &mut [u8],
    places: usize,
    rows: usize,
    p: usize,
    m: usize,
    k: usize,
    state: HardState,
) -> HardState
    requires { (p ≤ 256) × (length disk.old ≡ disk_bytes p places rows) × (m ≤ rows) × (k < m) }
    ensures { Applies p places rows m k state result disk.old disk.new }
{
    match write_at(disk, places, rows, p, m, k) {
        Shape::HardState(next) => next,
        Shape::Put { index, entry } => {
            put_waiting(disk, places, rows, p, k, index, entry);
            state
        }
        Shape::Truncate(from) => {
            truncate(disk, places, rows, p, from);
            state
        }
    }
}

// The m waiting writes made on the durable log and a hard state, in order.
pub fn replay(
    disk: &mut [u8],
    places: usize,
    rows: usize,
    p: usize,
    m: usize,
    state: HardState,
) -> HardState
    requires { (p ≤ 256) × (length disk.old ≡ disk_bytes p places rows) × (m ≤ rows) }
    ensures { Replays p places rows m state result disk.old disk.new }
{
    let mut next = state;
    for k in 0..m {
        next = apply(disk, places, rows, p, m, k, next);
    }
    next
}
