// Replays recorded traces of runs (data/, made by host/record): each call is made again, and its answer, the bytes that it wrote, and the
// lent bytes that it must leave are compared. One line a file.
#![tactic(auto)]

ghost use Rattle.std.specs.Prelude.{◌≡◌, ◌+◌, ◌^◌, ◌≤◌, ◌<◌, IfOk, length, vec_len};

mod call; // the calls
mod row; // a row's parts
mod told; // answers compared
mod calls; // calls that change a run
mod reads; // reads
mod schedules; // random fault schedules

use call::Call;
use row::Row;
use std::io::Read;
use std::rt::Files;
use std::{fs, io};

// Makes the call of a row, with a buffer of this length where it takes one, and answers whether its answer is the row's.
fn called(row: Row<'_>, area: &mut [u8], longest: usize) -> bool
    requires { longest ≤ 4096 }
{
    match row.call {
        Call::Start => calls::started(row, area),
        Call::Step => calls::stepped(row, area, longest),
        Call::Direct(call) => calls::direct_call(call, row, area),
        Call::Schedule => calls::scheduled(row, area),
        Call::Write(call) => calls::write(call, row, area),
        Call::Seal => calls::sealed(row, area),
        Call::Send => calls::sent(row, area),
        Call::Output(call) => calls::output(call, row, area),
        Call::End => calls::ended(row, area),
        Call::Check(call) => calls::check(call, row, area),
        Call::ReadServer(call) => reads::of_server(call, row, area),
        Call::ReadEntry(call) => reads::with_buffer(call, row, area, longest),
        Call::ReadRun(call) => reads::of_run(call, row, area),
        Call::Chaos => schedules::schedule(row),
    }
}

// Makes a call, and answers also whether the area is as it was; `before` is a space for its bytes.
fn kept(row: Row<'_>, area: &mut [u8], longest: usize, before: &mut [u8]) -> bool
    requires { (longest ≤ 4096) × (length area.old ≤ length before.old) }
{
    let n = area.len();
    words::copy_from(before, 0, area);
    let same = called(row, area, longest);
    same & (area[..] == before[0..n])
}

// Makes the call of a row that is refused: no byte of the area changes.
fn refused(row: Row<'_>, area: &mut [u8], longest: usize) -> bool
    requires { (longest ≤ 4096) × (length area.old ≤ 131072) }
{
    let mut before = [0u8; 131072];
    kept(row, area, longest, &mut before)
}

// Whether the 64 bytes past an area, which are lent with it, are as they were.
fn past_kept(area: &[u8]) -> bool {
    let n = area.len();
    if n < 64 {
        return n == 0;
    }
    told::untouched(&area[n - 64..])
}

// What is lent to the calls of a file: bytes, of which the first `size` are an area with the 64 bytes past it, and a buffer of a length.
#[derive(Drop)]
struct Lent {
    bytes: [u8; 131072],
    size: usize,
    longest: usize,
    ghost room: { size ≤ 131072 },
    ghost most: { longest ≤ 4096 },
}

impl Lent {
    // Nothing lent.
    fn new() -> Lent {
        Lent {
            bytes: [0; 131072],
            size: 0,
            longest: 0,
        }
    }

    // Lends an accepted start an area of its own, whose bytes are 0xA5; as much as before where the room is too small.
    fn lend(&mut self, row: Row<'_>) {
        self.bytes.fill(165);
        let limits = row.limits();
        let a = api::schedules::sim_area_length(row.number(0), row.number(7), limits);
        if a.length <= 131008 {
            self.size = a.length as usize + 64;
            self.longest = limits.payload.max(limits.message).min(4096) as usize;
        }
    }

    // Makes the call of a row, and answers whether all is as the row has it.
    fn agrees(&mut self, row: Row<'_>) -> bool {
        let refuses = row.refused();
        if let Call::Start = row.call
            && !refuses
        {
            self.lend(row);
        }
        let size = self.size;
        let longest = self.longest;
        let area = &mut self.bytes[0..size];
        let same = if refuses {
            refused(row, area, longest)
        } else {
            called(row, area, longest)
        };
        same & past_kept(area)
    }

    // Makes the call of a row's bytes, if they are a call's.
    fn turn(&mut self, bytes: &[u8]) -> bool {
        let Some(row) = row::read(bytes) else {
            return false;
        };
        self.agrees(row)
    }
}

// Reads the next row into a buffer, in place of what it held; gives how many bytes it has, at most 8,192, and 0 at the end of the file.
fn read_row<F: Read>(file: &mut F, row: &mut Vec<u8>) -> io::Result<usize>
    ensures { IfOk result (λ n. n ≤ vec_len row.new) }
{
    row.clear();
    if file.by_ref().take(8).read_to_end(row)? < 8 {
        return Ok(0);
    }
    let size = 8 * words::load(row, 0).min(1024);
    row.clear();
    file.by_ref().take(size).read_to_end(row)
}

// A row that differs: its place, counted from 0, and its call's number.
#[derive(Clone, Copy)]
struct Differing {
    place: u64,
    call: u64,
}

// How many calls were made, how many differ, and the first that does.
#[derive(Clone, Copy)]
struct Tally {
    calls: u64,
    differ: u64,
    first: Option<Differing>,
}

impl Tally {
    // A tally of one more call, with its row's place.
    fn tallied(self, place: u64, call: u64, same: bool) -> Tally
        requires { (self.calls < 2 ^ 32) × (self.differ ≤ self.calls) }
        ensures { (result.calls ≡ self.calls + 1) × (result.differ ≤ result.calls) }
    {
        let calls = self.calls + 1;
        if same {
            return Tally { calls, ..self };
        }
        Tally {
            calls,
            differ: self.differ + 1,
            first: self.first.or(Some(Differing { place, call })),
        }
    }
}

// The number of a row's call, 0 where the row is shorter than a word.
fn call_number(row: &[u8]) -> u64 {
    if row.len() < 8 {
        return 0;
    }
    words::load(row, 0)
}

// Makes the calls of a file, at most a million.
fn replayed<F: Read>(file: &mut F, row: &mut Vec<u8>) -> io::Result<Tally> {
    let mut lent = Lent::new();
    let mut tally = Tally {
        calls: 0,
        differ: 0,
        first: None,
    };
    for place in 0..1000000 {
        let n = read_row(file, row)?;
        if n == 0 {
            return Ok(tally);
        }
        let same = lent.turn(&row[0..n]);
        tally = tally.tallied(place, call_number(&row[0..n]), same);
    }
    Ok(tally)
}

// Writes what the replay of a file gave.
fn report(rt: &impl Print, name: &str, t: Tally) -> io::Result<()> {
    let calls = t.calls;
    let differ = t.differ;
    print!(rt; "{name}: {calls} calls, {differ} differ")?;
    if let Some(first) = t.first {
        let place = first.place;
        let call = first.call;
        print!(rt; ", the first at row {place}, call {call}")?;
    }
    println!(rt;)
}

// Replays one file.
fn replay(rt: &(impl Files + Print), name: &str, path: &str, row: &mut Vec<u8>) -> io::Result<()> {
    let mut file = fs::open(rt, path)?;
    report(rt, name, replayed(&mut file, row)?)
}

fn main(rt: HostRuntime) -> io::Result<()> {
    let mut row = Vec::new(rt.alloc());
    replay(&rt, "hostile-1", "hostile-1.bin", &mut row)?;
    replay(&rt, "hostile-31", "hostile-31.bin", &mut row)?;
    replay(&rt, "raft-20", "raft-20.bin", &mut row)?;
    replay(&rt, "vote-not-saved-45", "vote-not-saved-45.bin", &mut row)?;
    replay(&rt, "term-not-saved-6", "term-not-saved-6.bin", &mut row)?;
    replay(&rt, "applies-early-9", "applies-early-9.bin", &mut row)?;
    replay(
        &rt,
        "truncates-too-far-44",
        "truncates-too-far-44.bin",
        &mut row,
    )
}
