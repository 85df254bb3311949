// disk.bin: operations on one disk, each with what it leaves. The disk is two logs of 8 places, 192 bytes each, and 32 rows of waiting
// writes, 1,024 bytes: 1,408 bytes; a command has up to 7 bytes. A payload is a word: its lowest byte is 1 for a noop, else 2 and the
// length of the command, whose bytes follow.
ghost use Rattle.std.specs.Prelude.{◌≡◌, ◌≤◌, length};
ghost use Rattle.layout.specs.Payload.{body_of};
ghost use Rattle.units.specs.Types.{payload_behind};

use raft_log::EntryShape;
use storage::write::WriteError;
use storage::{HardState, StorageState, Synced, write};
use units::{LogIndex, PayloadRef, PayloadShape, Term};

// The disk that the rows so far left.
#[derive(Drop)]
pub struct Disk {
    state: StorageState,
    bytes: [u8; 1408],
}

// The hard state of three words: term, 1 where voted, vote.
fn hard_state(told: &[u8]) -> HardState
    requires { length told.now ≡ 24 }
{
    HardState {
        term: Term(words::load(told, 0)),
        voted_for: crate::node_of(words::load(told, 1), words::load(told, 2)),
    }
}

// What an operation other than a sync answers.
fn changed(state: StorageState) -> Synced {
    Synced {
        state,
        written: None,
    }
}

// What a write answers, where it is made.
fn written(answer: Result<StorageState, WriteError>) -> Option<Synced> {
    answer.ok().map(changed)
}

// The payload that eight bytes are.
fn payload(word: &[u8]) -> PayloadRef<'_>
    requires { length word.now ≡ 8 }
    ensures { length (body_of (payload_behind result)) ≤ 7 }
{
    let mark = usize::from(word[0]);
    if mark < 2 {
        return PayloadRef::Noop;
    }
    let end = (mark - 1).min(8);
    PayloadRef::Command(&word[1..end])
}

// The mark of what a place holds: 0 for nothing, 1 for a noop, 2 and the length for a command.
fn mark(place: Option<EntryShape>) -> u64 {
    match place.map(|entry| entry.payload) {
        None => 0,
        Some(PayloadShape::Noop) => 1,
        Some(PayloadShape::Command { length }) => (length as u64).saturating_add(2),
    }
}

// Whether three words are a hard state: term, 1 where voted, vote, 0 where there is none.
fn state_told(state: HardState, told: &[u8]) -> bool
    requires { length told.now ≡ 24 }
{
    let vote = state.voted_for;
    (state.term.0 == words::load(told, 0))
        & (u64::from(vote.is_some()) == words::load(told, 1))
        & (vote.map_or(0, |id| id.0) == words::load(told, 2))
}

// Whether three words are a log's entries, last index, gaps.
fn log_told(log: &[u8], told: &[u8]) -> bool
    requires { (length log.now ≡ 192) × (length told.now ≡ 24) }
{
    (raft_log::count(log, 8, 7) == words::load(told, 0))
        & (raft_log::last_index(log, 8, 7).0 == words::load(told, 1))
        & (raft_log::gaps(log, 8, 7) == words::load(told, 2))
}

// Whether two words are what the log holds at an index: payload, term.
fn place_told(log: &[u8], index: LogIndex, told: &[u8; 16]) -> bool
    requires { length log.now ≡ 192 }
{
    let mut command = [0u8; 7];
    let place = raft_log::read_entry(log, 8, 7, index, &mut command);
    let term = raft_log::term_of(place).map_or(0, |term| term.0);
    (mark(place) == u64::from(told[0]))
        & (command[..] == told[1..8])
        & (term == words::load(told, 1))
}

// Whether words are what the places of a log hold, from index 1 on.
fn places_told(log: &[u8], told: &[u8]) -> bool
    requires { length log.now ≡ 192 }
{
    let (places, _) = told.as_chunks::<16>();
    (1..9)
        .zip(places)
        .all(|(index, told)| place_told(log, LogIndex(index), told))
}

// Whether a row tells what an operation answered, and the state that it left without the logs.
fn answer_told(after: Synced, row: &[u8; 384]) -> bool {
    let v = after.state;
    (u64::from(after.written.is_some()) == words::load(row, 4))
        & (after.written.unwrap_or(0) == words::load(row, 5))
        & state_told(v.current, &row[48..72])
        & (v.discarded == words::load(row, 12))
        & state_told(v.durable, &row[104..128])
}

// Whether a row tells both logs.
fn logs_told(disk: &[u8; 1408], row: &[u8; 384]) -> bool {
    log_told(&disk[0..192], &row[72..96])
        & places_told(&disk[0..192], &row[128..256])
        & places_told(&disk[192..384], &row[256..384])
}

impl Disk {
    // A disk as it is made.
    pub fn new() -> Disk {
        let state = HardState {
            term: Term(0),
            voted_for: None,
        };
        Disk {
            state: StorageState {
                current: state,
                durable: state,
                waiting: 0,
                discarded: 0,
            },
            bytes: [0; 1408],
        }
    }

    // A put of the payload that eight bytes are.
    fn put(&mut self, index: u64, term: u64, word: &[u8]) -> Option<Synced>
        requires { length word.now ≡ 8 }
    {
        if index < 1 || 8 < index {
            return None;
        }
        written(write::put(
            self.state,
            &mut self.bytes,
            8,
            32,
            7,
            LogIndex(index),
            Term(term),
            payload(word),
        ))
    }

    // A sync.
    fn sync(&mut self) -> Option<Synced> {
        if 32 < self.state.waiting {
            return None;
        }
        Some(storage::sync(self.state, &mut self.bytes, 8, 32, 7))
    }

    // A crash.
    fn crash(&mut self) -> Option<Synced> {
        if 32 < self.state.waiting {
            return None;
        }
        Some(changed(storage::crash(self.state, &mut self.bytes, 8, 32, 7)))
    }

    // What a row's operation, its kind and three numbers, answers where it is made. No enum of the kinds: it would be matched once, right
    // after the match that reads it.
    fn operate(&mut self, row: &[u8; 384]) -> Option<Synced> {
        let v = self.state;
        let first = words::load(row, 1);
        match words::load(row, 0) {
            0 => {
                let state = hard_state(&row[8..32]);
                written(write::set_hard_state(v, &mut self.bytes, 8, 32, 7, state))
            }
            1 => self.put(first, words::load(row, 2), &row[24..32]),
            2 => written(write::truncate(v, &mut self.bytes, 8, 32, 7, LogIndex(first))),
            3 => self.sync(),
            4 => self.crash(),
            _ => None,
        }
    }

    // A row of disk.bin: an operation, and what it leaves.
    pub fn agrees(&mut self, row: &[u8; 384]) -> bool {
        let Some(after) = self.operate(row) else {
            return false;
        };
        self.state = after.state;
        answer_told(after, row) & logs_told(&self.bytes, row)
    }
}
