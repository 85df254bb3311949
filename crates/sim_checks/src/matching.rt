// Log matching: every pair of servers' logs, those of stopped servers too (check_log_matching).
ghost use Rattle.std.specs.Prelude.{◌≡◌, ◌+◌, ◌-◌, ◌<◌};
ghost use Rattle.model.specs.Calls.{check_log_matching_call};
ghost use Rattle.state.specs.Changes.{Inside, Gated, Changes, Planned};
ghost use Rattle.state.specs.Call.{call};
ghost use Rattle.answers.specs.Answers.{done_no, done_yes};
ghost use Rattle.sim_checks.specs.Steps.{each};
ghost use Rattle.sim_checks.specs.Matching.{pair_checked, against_checked, matching_checked};

use crate::is_closed;
use answers::DoneAnswer;
use state::{Capacity, Gate};
use state_asks::matching;
use state_checks::acts;
use units::refusal::answer_number;
use units::{NodeId, SimTime};

// Questions 6 and 10.
fn matching_plan(area: &[u8], f: Capacity) -> u64
    requires { Inside area.now f }
    ensures { Planned area.now f result check_log_matching_call tt matching_checked }
{
    let closed = is_closed(area, f);
    if !closed {
        return 6;
    }
    answer_number(matching::matching_asked(area, f).room)
}

// The logs of the servers at two places.
fn check_pair(area: &mut [u8], f: Capacity, time: SimTime, i: usize, j: usize)
    requires inside { Inside area.old f }
    requires i_lt_servers { i < f.servers }
    requires j_lt_servers { j < f.servers }
    ensures { Changes area.old area.new f (pair_checked time i j) }
{
    let found = matching::mismatch_of(area, f, i, j);
    let a = NodeId(i as u64 + 1);
    let b = NodeId(j as u64 + 1);
    acts::matching_act(area, f, time, a, b, found);
}

// The log of the server at a place, with each behind it.
fn check_against(area: &mut [u8], f: Capacity, time: SimTime, i: usize)
    requires inside { Inside area.old f }
    requires i_lt_servers { i < f.servers }
    ensures { Changes area.old area.new f (against_checked time f.servers i) }
{
    for j in i + 1..f.servers as usize {
        check_pair(area, f, time, i, j);
    }
}

// Every pair of logs, in the servers' order.
fn check_pairs(area: &mut [u8], f: Capacity, time: SimTime)
    requires { Inside area.old f }
    ensures { Changes area.old area.new f (each (against_checked time f.servers) 0 f.servers) }
{
    for i in 0..f.servers as usize {
        check_against(area, f, time, i);
    }
}

// Every pair of logs at the state's time.
fn matching_act(area: &mut [u8], f: Capacity)
    requires { Inside area.old f }
    ensures { Changes area.old area.new f matching_checked }
{
    let run = state_header::run_of(area, f);
    check_pairs(area, f, run.now);
}

// Log matching checked over every pair of logs.
pub fn check_log_matching_in(area: &mut [u8], g: Gate) -> DoneAnswer
    requires { Gated area.old g }
    ensures { (result, area.new) ≡ call done_no done_yes area.old check_log_matching_call }
{
    let refusal = g.refusal;
    let f = g.capacity;
    if 0 < refusal {
        return answers::done(refusal);
    }
    let code = matching_plan(area, f);
    if 0 < code {
        return answers::done(code);
    }
    matching_act(area, f);
    answers::done(0)
}
