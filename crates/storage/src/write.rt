// The writes of an input (sim/storage.rs): seen at once in the current log and hard state, and kept waiting for the next sync.
ghost use Rattle.std.specs.Prelude.{◌≡◌, ◌+◌, ◌*◌, ◌≤◌, ◌<◌, length};
ghost use Rattle.units.specs.Types.{payload_behind};
ghost use Rattle.units.specs.declared.refusal.Refusal.TheVariants.{Room};
ghost use Rattle.layout.specs.Marked.{words_for};
ghost use Rattle.layout.specs.Payload.{body_of};
ghost use Rattle.storage.specs.Storage.{write_hard_state, write_put, write_truncate};
ghost use Rattle.storage.specs.Stores.{disk_bytes};
ghost use Rattle.storage.specs.Writes.{Writes, Makes, Replaces};

use crate::{HardState, StorageState, waiting};
use layout::rows;
use units::refusal::Refusal;
use units::{LogIndex, PayloadRef, Term};

// Why a write is not made; nothing has changed then.
#[derive(Clone, Copy)]
pub enum WriteError {
    // There is no room for another waiting write.
    Full,
    // The count of discarded entries would be past 64 bits.
    Past64Bits,
}

impl From<WriteError> for Refusal {
    ghost from_gives = { λ error refusal. refusal ≡ Room };

    fn from(_error: WriteError) -> Refusal {
        Refusal::Room
    }
}

// Replaces the hard state.
pub fn set_hard_state(
    v: StorageState,
    disk: &mut [u8],
    places: usize,
    rows: usize,
    p: usize,
    state: HardState,
) -> Result<StorageState, WriteError>
    requires { (p ≤ 256) × (length disk.old ≡ disk_bytes p places rows) }
    ensures { Writes p places rows v (write_hard_state state) result disk.old disk.new }
{
    let m = v.waiting as usize;
    if rows <= m {
        return Err(WriteError::Full);
    }
    let logs = rows::start(places, places, 2 + (p + 7) / 8);
    let from = 16 * logs;
    waiting::push_hard_state(&mut disk[from..], m, p, state);
    Ok(StorageState {
        current: state,
        waiting: v.waiting + 1,
        ..v
    })
}

// How many entries of a log a put discards: one of another payload that is there.
fn replaces(
    log: &[u8],
    n: usize,
    p: usize,
    index: LogIndex,
    term: Term,
    payload: PayloadRef<'_>,
) -> u64
    requires p_bound { (p ≤ 256) × (8 * (n * (2 + words_for p)) ≤ length log.now) }
    requires payload_bound { length (body_of (payload_behind payload)) ≤ p }
    ensures { Replaces p n (write_put index (record { term = term; payload = payload_behind payload.entry })) result log.now }
{
    let there = raft_log::entry(log, n, p, index).is_some();
    let same = raft_log::holds(log, n, p, index, payload);
    u64::from(there & !same)
}

// Puts an entry in the current log, and as one more waiting write.
fn put_entry(
    disk: &mut [u8],
    places: usize,
    rows: usize,
    p: usize,
    m: usize,
    index: LogIndex,
    term: Term,
    payload: PayloadRef<'_>,
)
    requires p_bound { (p ≤ 256) × (length disk.old ≡ disk_bytes p places rows) × (m < rows) × (1 ≤ index.0) × (index.0 ≤ places) }
    requires payload_bound { length (body_of (payload_behind payload)) ≤ p }
    ensures { Makes p places rows m (write_put index (record { term = term; payload = payload_behind payload.entry })) disk.old disk.new }
{
    let logs = rows::start(places, places, 2 + (p + 7) / 8);
    let to = 8 * logs;
    let from = 16 * logs;
    raft_log::put(&mut disk[0..to], places, p, index, term, payload);
    waiting::push_put(&mut disk[from..], m, p, index, term, payload);
}

// Puts an entry at an index.
pub fn put(
    v: StorageState,
    disk: &mut [u8],
    places: usize,
    rows: usize,
    p: usize,
    index: LogIndex,
    term: Term,
    payload: PayloadRef<'_>,
) -> Result<StorageState, WriteError>
    requires p_bound { (p ≤ 256) × (length disk.old ≡ disk_bytes p places rows) × (1 ≤ index.0) × (index.0 ≤ places) }
    requires payload_bound { length (body_of (payload_behind payload)) ≤ p }
    ensures { Writes p places rows v (write_put index (record { term = term; payload = payload_behind payload.entry })) result disk.old disk.new }
{
    let m = v.waiting as usize;
    if rows <= m {
        return Err(WriteError::Full);
    }
    let logs = rows::start(places, places, 2 + (p + 7) / 8);
    let to = 8 * logs;
    let d = replaces(&disk[0..to], places, p, index, term, payload);
    let Some(discarded) = v.discarded.checked_add(d) else {
        return Err(WriteError::Past64Bits);
    };
    put_entry(disk, places, rows, p, m, index, term, payload);
    Ok(StorageState {
        waiting: v.waiting + 1,
        discarded,
        ..v
    })
}

// Removes every entry at an index or later.
pub fn truncate(
    v: StorageState,
    disk: &mut [u8],
    places: usize,
    rows: usize,
    p: usize,
    index: LogIndex,
) -> Result<StorageState, WriteError>
    requires { (p ≤ 256) × (length disk.old ≡ disk_bytes p places rows) }
    ensures { Writes p places rows v (write_truncate index) result disk.old disk.new }
{
    let m = v.waiting as usize;
    if rows <= m {
        return Err(WriteError::Full);
    }
    let logs = rows::start(places, places, 2 + (p + 7) / 8);
    let to = 8 * logs;
    let from = 16 * logs;
    let d = raft_log::removed(&disk[0..to], places, p, index);
    let Some(discarded) = v.discarded.checked_add(d) else {
        return Err(WriteError::Past64Bits);
    };
    raft_log::truncate(&mut disk[0..to], places, p, index);
    waiting::push_truncate(&mut disk[from..], m, p, index);
    Ok(StorageState {
        waiting: v.waiting + 1,
        discarded,
        ..v
    })
}
