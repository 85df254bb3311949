// The direct calls: each opens an input of a server that runs, or schedules a fault.
ghost use Rattle.std.specs.Prelude.{◌≡◌};
ghost use Rattle.model.specs.Calls.{propose, fire_timer, confirm_leadership, schedule};
ghost use Rattle.state.specs.Call.{call};
ghost use Rattle.answers.specs.Answers.{done_no, done_yes, opened_no, opened_yes, asked_yes};

use answers::{DoneAnswer, OpenedAnswer};
use sim_direct::asked;

// A command proposed at a server: a sequence number is used, whether or not it runs.
pub fn sim_propose(area: &mut [u8], server: u64) -> OpenedAnswer
    ensures { (result, area.new) ≡ call opened_no asked_yes area.old (propose server) }
{
    let g = state_gate::gate(area);
    asked::propose_in(area, g, server)
}

// A timer fired at a server, whether or not it is pending.
pub fn sim_fire_timer(area: &mut [u8], server: u64, timer: u64) -> OpenedAnswer
    ensures { (result, area.new) ≡ call opened_no opened_yes area.old (fire_timer server timer) }
{
    let g = state_gate::gate(area);
    sim_direct::fire_timer_in(area, g, server, timer)
}

// Leadership to be confirmed by a server.
pub fn sim_confirm_leadership(area: &mut [u8], server: u64, request: u64) -> OpenedAnswer
    ensures { (result, area.new) ≡ call opened_no asked_yes area.old (confirm_leadership server (record { 0 = request })) }
{
    let g = state_gate::gate(area);
    asked::confirm_leadership_in(area, g, server, request)
}

// A fault scheduled: its kind, two numbers, and a partition's groups, one byte each.
pub fn sim_schedule(
    area: &mut [u8],
    time: u64,
    kind: u64,
    first: u64,
    second: u64,
    groups: &[u8],
) -> DoneAnswer
    ensures { (result, area.new) ≡ call done_no done_yes area.old (schedule (record { 0 = time }) kind first second groups.now) }
{
    let g = state_gate::gate(area);
    sim_schedule::schedule_in(area, g, time, kind, first, second, groups)
}
