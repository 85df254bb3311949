// Persistent state (consensus/storage.rs, sim/storage.rs): a server's term, vote and log, current and durable, and the writes not yet synced.
// A disk is one region that the caller lends: the current log and the durable log, of `places` places each, and `rows` rows of waiting
// writes, side by side; p is the greatest length of a command. What has a fixed size goes by value.
#![tactic(auto)]

ghost use Rattle.std.specs.Prelude.{◌≡◌, ◌+◌, ◌*◌, ◌^◌, ◌≤◌, ◌<◌, length};
ghost use Rattle.storage.specs.Stores.{disk_bytes, Syncs, Crashes};

pub mod waiting; // the writes not yet synced
pub mod replay; // what a sync does with them
pub mod write; // one more write

use layout::rows;
use units::{NodeId, Term};

// The persistent state other than the log.
#[derive(Clone, Copy)]
pub struct HardState {
    pub term: Term,
    // The candidate this server voted for in the term.
    pub voted_for: Option<NodeId>,
}

// A server's storage without its region: both hard states, the count of waiting writes, and the entries discarded.
#[derive(Clone, Copy)]
pub struct StorageState {
    pub current: HardState,
    pub durable: HardState,
    pub waiting: u64,
    pub discarded: u64,
}

// The answer of a sync: the state after it, and how many bytes were written, if there was anything to write.
#[derive(Clone, Copy)]
pub struct Synced {
    pub state: StorageState,
    pub written: Option<u64>,
}

// Makes the waiting writes durable.
pub fn sync(v: StorageState, disk: &mut [u8], places: usize, rows: usize, p: usize) -> Synced
    requires { (p ≤ 256) × (length disk.old ≡ disk_bytes p places rows) × (v.waiting ≤ rows) × (v.waiting ≤ 2 ^ 32) }
    ensures { Syncs p places rows v result disk.old disk.new }
{
    let m = v.waiting as usize;
    let logs = rows::start(places, places, 2 + (p + 7) / 8);
    let from = 16 * logs;
    let bytes = replay::unsynced_bytes(&disk[from..], m, p);
    let durable = replay::replay(disk, places, rows, p, m, v.durable);
    waiting::clear(&mut disk[from..], m, p);
    Synced {
        state: StorageState {
            durable,
            waiting: 0,
            ..v
        },
        written: (0 < m).then_some(bytes),
    }
}

// Discards the waiting writes: the durable log is copied over the current one.
pub fn crash(v: StorageState, disk: &mut [u8], places: usize, rows: usize, p: usize) -> StorageState
    requires { (p ≤ 256) × (length disk.old ≡ disk_bytes p places rows) × (v.waiting ≤ rows) }
    ensures { Crashes p places rows v result disk.old disk.new }
{
    let m = v.waiting as usize;
    let logs = rows::start(places, places, 2 + (p + 7) / 8);
    let from = 16 * logs;
    words::close_gap(disk, 0, from, 8 * logs);
    waiting::clear(&mut disk[from..], m, p);
    StorageState {
        current: v.durable,
        waiting: 0,
        ..v
    }
}
