// Every pair of servers' logs (check_log_matching of checks.rs). The blocks of servers 1, 2, .., at most 8, lie side by side in one region,
// each of `stride` words, and a block has its server's log of n places at its word `from`. The question only counts; each mismatch is then
// reported by itself (keep_mismatch).
ghost use Rattle.std.specs.Prelude.{◌≡◌, ◌+◌, ◌*◌, ◌≤◌, ◌<◌, length};
ghost use Rattle.layout.specs.Marked.{words_for};
ghost use Rattle.checks_log_matching.specs.Pairs.{Logs, Between, Records, reported_mismatch};
ghost use Rattle.checks_log_matching.specs.Pairs.{one_of, CountsAfter, Counts, AsksLogs};

use checks::{Check, Mismatch, violations};
use layout::rows;
use units::refusal::Refusal;
use units::{NodeId, SimTime};

// Question 10, answered no where the total of violations would have no 64 bits; and, then too, how many pairs are to be reported.
#[derive(Clone, Copy)]
pub struct MatchingAsked {
    pub room: Result<(), Refusal>,
    pub reports: u64,
}

// ---- one pair

// How the logs of two slots break log matching.
pub fn mismatch_between(
    blocks: &[u8],
    servers: usize,
    stride: usize,
    from: usize,
    n: usize,
    p: usize,
    i: usize,
    j: usize,
) -> Option<Mismatch>
    requires i_lt_servers { i < servers }
    requires j_lt_servers { j < servers }
    requires p_bound { p ≤ 256 }
    requires p_bound_2 { from + n * (2 + words_for p) ≤ stride }
    requires stride_in_bounds { 8 * (servers * stride) ≤ length blocks.now }
    ensures { Between (Logs p n servers stride from blocks.now) i j result }
{
    let a = 8 * (rows::start_of(i, servers, stride) + from);
    let b = 8 * (rows::start_of(j, servers, stride) + from);
    let size = 8 * (n * (2 + (p + 7) / 8));
    let a_end = a + size;
    let b_end = b + size;
    crate::log_matching_failure(&blocks[a..a_end], &blocks[b..b_end], n, p)
}

// Keeps the mismatch of two servers' logs, if there is one, and answers how many violations are kept.
pub fn keep_mismatch(
    v: &mut [u8],
    kept: usize,
    time: SimTime,
    a: NodeId,
    b: NodeId,
    found: Option<Mismatch>,
) -> usize
    requires { 2048 ≤ length v.old }
    ensures { Records kept result v.old v.new (reported_mismatch found time a b) }
{
    match found {
        None => kept,
        Some(m) => {
            let detail = [a.0, b.0, m.term.0, m.index.0, m.difference.0];
            violations::keep(v, kept, true, time, Check::LogMatching, &detail)
        }
    }
}

// ---- every pair

// 1 where there is a mismatch.
#[tactic(auto, unfolding(crate::specs::Pairs::one_of))]
fn one_of(found: Option<Mismatch>) -> u64
    ensures { (result ≡ one_of found) × (result ≤ 1) }
{
    u64::from(found.is_some())
}

// How many logs of the slots after slot i break log matching with its own.
fn mismatches_after(
    blocks: &[u8],
    servers: usize,
    stride: usize,
    from: usize,
    n: usize,
    p: usize,
    i: usize,
) -> u64
    requires i_lt_servers { i < servers }
    requires servers_bound { servers ≤ 8 }
    requires p_bound { p ≤ 256 }
    requires p_bound_2 { from + n * (2 + words_for p) ≤ stride }
    requires stride_in_bounds { 8 * (servers * stride) ≤ length blocks.now }
    ensures { CountsAfter (Logs p n servers stride from blocks.now) i result }
{
    let mut r: u64 = 0;
    for j in i + 1..servers {
        r += one_of(mismatch_between(blocks, servers, stride, from, n, p, i, j));
    }
    r
}

// How many pairs of logs break log matching.
pub fn count_mismatches(
    blocks: &[u8],
    servers: usize,
    stride: usize,
    from: usize,
    n: usize,
    p: usize,
) -> u64
    requires servers_bound { servers ≤ 8 }
    requires p_bound { p ≤ 256 }
    requires p_bound_2 { from + n * (2 + words_for p) ≤ stride }
    requires stride_in_bounds { 8 * (servers * stride) ≤ length blocks.now }
    ensures { Counts (Logs p n servers stride from blocks.now) result }
{
    let mut r: u64 = 0;
    for i in 0..servers {
        r += mismatches_after(blocks, servers, stride, from, n, p, i);
    }
    r
}

// ---- the question

// Asks log matching of every pair of logs, before anything is reported.
pub fn check_log_matching(
    blocks: &[u8],
    servers: usize,
    stride: usize,
    from: usize,
    n: usize,
    p: usize,
    total: u64,
) -> MatchingAsked
    requires servers_bound { servers ≤ 8 }
    requires p_bound { p ≤ 256 }
    requires p_bound_2 { from + n * (2 + words_for p) ≤ stride }
    requires stride_in_bounds { 8 * (servers * stride) ≤ length blocks.now }
    ensures { AsksLogs (Logs p n servers stride from blocks.now) total result }
{
    let reports = count_mismatches(blocks, servers, stride, from, n, p);
    MatchingAsked {
        room: checks::where_fits(0, 0, total, reports, ()),
        reports,
    }
}
