// The direct calls: each opens an input of a server that runs, or schedules a fault.
ghost use Rattle.std.specs.Prelude.{◌≡◌};
ghost use Rattle.model.specs.Calls.{propose, fire_timer, confirm_leadership, schedule};
ghost use Rattle.state.specs.Call.{call};
ghost use Rattle.answers.specs.Answers.{done_no, done_yes, opened_no, opened_yes, asked_yes};

use answers::{DoneAnswer, OpenedAnswer};
use api::direct;

// A command proposed at a server: a sequence number is used, whether or not it runs.
#[unsafe(no_mangle)]
pub extern "C" fn sim_propose(area: &mut [u8], server: u64) -> OpenedAnswer
    ensures { (result, area.new) ≡ call opened_no asked_yes area.old (propose server) }
{
    direct::sim_propose(area, server)
}

// A timer fired at a server, whether or not it is pending.
#[unsafe(no_mangle)]
pub extern "C" fn sim_fire_timer(area: &mut [u8], server: u64, timer: u64) -> OpenedAnswer
    ensures { (result, area.new) ≡ call opened_no opened_yes area.old (fire_timer server timer) }
{
    direct::sim_fire_timer(area, server, timer)
}

// Leadership to be confirmed by a server.
#[unsafe(no_mangle)]
pub extern "C" fn sim_confirm_leadership(area: &mut [u8], server: u64, request: u64) -> OpenedAnswer
    ensures { (result, area.new) ≡ call opened_no asked_yes area.old (confirm_leadership server (record { 0 = request })) }
{
    direct::sim_confirm_leadership(area, server, request)
}

// A fault scheduled: its kind, two numbers, and a partition's groups, one byte each.
#[unsafe(no_mangle)]
pub extern "C" fn sim_schedule(
    area: &mut [u8],
    time: u64,
    kind: u64,
    first: u64,
    second: u64,
    groups: &[u8],
) -> DoneAnswer
    ensures { (result, area.new) ≡ call done_no done_yes area.old (schedule (record { 0 = time }) kind first second groups.now) }
{
    direct::sim_schedule(area, time, kind, first, second, groups)
}
