// A fault scheduled (schedule of simulation.rs), behind the gate.
#![tactic(auto)]

ghost use Rattle.std.specs.Prelude.{◌≡◌, max};
ghost use Rattle.model.specs.Calls.{schedule};
ghost use Rattle.state.specs.Changes.{Inside, Gated};
ghost use Rattle.state.specs.Call.{call};
ghost use Rattle.answers.specs.Answers.{done_no, done_yes};
ghost use Rattle.sim_schedule.specs.Schedule.{schedule_code, SchedulePlanned};

use answers::DoneAnswer;
use faults::Fault;
use queue::Event;
use state::{Capacity, Gate};
use units::SimTime;

pub mod given; // the fault of the call's numbers

// What scheduling a fault will push, or the refusal.
#[derive(Clone, Copy)]
pub struct SchedulePlan {
    pub code: u64,
    pub time: u64,
    pub fault: Fault,
}

// The refusal: 6, 7, 9, 10, or 0.
fn schedule_code(closed: bool, known: bool, args: bool, room: bool) -> u64
    ensures { result ≡ schedule_code closed known args room }
{
    if !closed {
        return 6;
    }
    if !known {
        return 7;
    }
    if !args {
        return 9;
    }
    if !room {
        return 10;
    }
    0
}

// A time before now becomes now.
fn not_before(time: u64, now: u64) -> u64
    ensures { result ≡ max time now }
{
    if time < now { now } else { time }
}

// What scheduling a fault will push, or the refusal.
fn schedule_plan(
    area: &[u8],
    f: Capacity,
    time: u64,
    kind: u64,
    first: u64,
    second: u64,
    groups: &[u8],
) -> SchedulePlan
    requires { Inside area.now f }
    ensures { SchedulePlanned area.now f time kind first second groups.now result }
{
    let open = state_header::open_of(area, f);
    let asked = given::fault_asked(f.servers, kind, first, second, groups);
    let room = state_queue::queue_room(area, f, 1);
    let run = state_header::run_of(area, f);
    let args = (time <= 4611686018427387904) & asked.fits;
    let code = schedule_code(open.phase == 0, asked.known, args, room);
    let fault = asked.fault;
    SchedulePlan {
        code,
        time: not_before(time, run.now.0),
        fault,
    }
}

// A fault scheduled, by its kind, two numbers and the groups of a partition.
pub fn schedule_in(
    area: &mut [u8],
    g: Gate,
    time: u64,
    kind: u64,
    first: u64,
    second: u64,
    groups: &[u8],
) -> DoneAnswer
    requires { Gated area.old g }
    ensures { (result, area.new) ≡ call done_no done_yes area.old
        (schedule (record { 0 = time }) kind first second groups.now) }
{
    let refusal = g.refusal;
    let f = g.capacity;
    if 0 < refusal {
        return answers::done(refusal);
    }
    let p = schedule_plan(area, f, time, kind, first, second, groups);
    let code = p.code;
    if 0 < code {
        return answers::done(code);
    }
    let fault = p.fault;
    state_queue::push_plain(area, f, SimTime(p.time), Event::Fault(fault));
    answers::done(0)
}
