// Every pair of servers' logs (check_log_matching of checks.rs), those of stopped servers too.
ghost use Rattle.std.specs.Prelude.{◌≡◌, ◌<◌};
ghost use Rattle.state.specs.Changes.{Inside, Reads};
ghost use Rattle.state_asks.specs.Asks.{Asks, mismatch_between, MatchingTold, MatchingGiven};

use crate::numbers;
use checks::Mismatch;
use checks_log_matching::pairs;
use checks_log_matching::pairs::MatchingAsked;
use state::{Capacity, sizes};

// What every pair of logs gives, with the total of violations.
fn matching_given(area: &[u8], f: Capacity, total: u64) -> MatchingAsked
    requires { Inside area.now f }
    ensures { Asks area.now f (MatchingGiven total result) }
{
    let limits = f.limits;
    let stride = sizes::block_words(f);
    let end = 8 * numbers::queue_at(area, f);
    pairs::check_log_matching(
        &area[4096..end],
        f.servers as usize,
        stride,
        64,
        limits.log_indexes as usize,
        limits.payload as usize,
        total,
    )
}

// What every pair of logs gives to report.
pub fn matching_asked(area: &[u8], f: Capacity) -> MatchingAsked
    requires { Inside area.now f }
    ensures { Asks area.now f (MatchingTold result) }
{
    let counts = state_header::counts_of(area, f);
    matching_given(area, f, counts.total)
}

// How the logs of the servers at two places break log matching.
pub fn mismatch_of(area: &[u8], f: Capacity, i: usize, j: usize) -> Option<Mismatch>
    requires inside { Inside area.now f }
    requires i_lt_servers { i < f.servers }
    requires j_lt_servers { j < f.servers }
    ensures { Reads area.now f result (mismatch_between i j) }
{
    let limits = f.limits;
    let stride = sizes::block_words(f);
    let end = 8 * numbers::queue_at(area, f);
    pairs::mismatch_between(
        &area[4096..end],
        f.servers as usize,
        stride,
        64,
        limits.log_indexes as usize,
        limits.payload as usize,
        i,
        j,
    )
}
