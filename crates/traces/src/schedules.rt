// A random schedule of faults, drawn into a lent list.
ghost use Rattle.std.specs.Prelude.{◌≤◌};

use crate::row::Row;
use crate::told;
use api::schedules;
use api::schedules::ChaosNumbers;

// The four times of a schedule, from word i of its arguments on.
fn chaos(row: Row<'_>, i: usize) -> ChaosNumbers
    requires { i ≤ 1000000 }
{
    ChaosNumbers {
        start: row.number(i),
        end: row.number(i + 1),
        mean_gap: row.number(i + 2),
        max_duration: row.number(i + 3),
    }
}

// A schedule whose times begin at word i, in a list: its count, the bytes of what it leaves, the generator's state, which of a refused
// schedule is the one before, and the list.
fn drawn(row: Row<'_>, i: usize, list: &mut [u8]) -> bool
    requires { i ≤ 1000000 }
{
    let before = row.number(i + 4);
    let a = schedules::sim_chaos_schedule(row.bytes(0), chaos(row, i), before, list);
    let count = a.count;
    if 65536 < count {
        return false;
    }
    let state = if a.refusal == 0 { a.generator } else { before };
    told::numbers_and_bytes(
        row.answer,
        &[a.refusal, count, 8 + 32 * count, state],
        32 * count,
        list,
    )
}

// A schedule, in a list of as many bytes as the last argument says.
pub fn schedule(row: Row<'_>) -> bool {
    let n = row.given.len() / 8;
    if n < 7 || 100000 < n {
        return false;
    }
    let length = row.number(n - 1);
    if 4096 < length {
        return false;
    }
    let mut list = [165u8; 4096];
    drawn(row, n - 6, &mut list[0..length as usize])
}
