// Replays recorded answers of checks.rs, metrics.rs and the choice of a leader (data/, made by host/record): each row is computed again and
// compared. One line a file.
#![tactic(auto)]

ghost use Rattle.std.specs.Prelude.{◌≡◌, ◌<◌, IfOk, vec_len};

mod leading; // the leader of a list of statuses
mod counters; // operations on the counters
mod checking; // the checks, over an area
mod operations; // one operation of the checks

use metrics::Metrics;
use std::io::Read;
use std::rt::Files;
use std::{fs, io};

// How many rows were compared, how many of them differ, and the first that does, counted from 1.
#[derive(Clone, Copy)]
struct Tally {
    rows: usize,
    differ: usize,
    first: Option<usize>,
}

// Compares the rows of a file.
fn compared<R, F: FnMut(&R) -> bool>(rows: &[R], mut agrees: F) -> Tally
    requires { F.IsAlwaysCallable agrees }
{
    let mut differ = 0;
    let mut first = None;
    for (i, row) in rows.iter().enumerate() {
        if !agrees(row) {
            differ += 1;
            first = first.or(Some(i + 1));
        }
    }
    Tally {
        rows: rows.len(),
        differ,
        first,
    }
}

// Writes what the comparison of a file gave.
fn report(rt: &impl Print, name: &str, t: Tally) -> io::Result<()> {
    let rows = t.rows;
    let differ = t.differ;
    print!(rt; "{name}: {rows} rows, {differ} differ")?;
    if let Some(first) = t.first {
        print!(rt; ", the first is row {first}")?;
    }
    println!(rt;)
}

// Reads a file into a buffer, in place of what it held; gives how many bytes.
fn read(rt: &impl Files, path: &str, buffer: &mut Vec<u8>) -> io::Result<usize>
    ensures { IfOk result (λ n. n ≡ vec_len buffer.new) }
{
    buffer.clear();
    let mut file = fs::open(rt, path)?;
    file.read_to_end(buffer)
}

// The rows of N bytes of a file that is read into a buffer.
fn read_rows<'a, const N: usize>(
    rt: &impl Files,
    path: &str,
    buffer: &'a mut Vec<u8>,
) -> io::Result<&'a [[u8; N]]>
    requires { 0 < N }
{
    read(rt, path, buffer)?;
    Ok(buffer.as_chunks::<N>().0)
}

fn main(rt: HostRuntime) -> io::Result<()> {
    let mut buffer = Vec::new(rt.alloc());
    let rows = read_rows::<152>(&rt, "leader.bin", &mut buffer)?;
    report(&rt, "leader", compared(rows, leading::agrees))?;
    let rows = read_rows::<288>(&rt, "metrics.bin", &mut buffer)?;
    let mut metrics = Metrics::new();
    let tally = compared(rows, |row| counters::agrees(&mut metrics, row));
    report(&rt, "metrics", tally)?;
    let rows = read_rows::<488>(&rt, "checks.bin", &mut buffer)?;
    let mut area = [0u8; 7880];
    let tally = compared(rows, |row| checking::agrees(&mut area, row));
    report(&rt, "checks", tally)
}
