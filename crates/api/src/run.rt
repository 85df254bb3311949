// A run begins and goes on, and its open input is sealed and ended.
ghost use Rattle.std.specs.Prelude.{◌≡◌};
ghost use Rattle.model.specs.Calls.{start, seal, end};
ghost use Rattle.state.specs.Call.{call, starting};
ghost use Rattle.answers.specs.Answers.{opened_no, opened_yes, sealed_no, sealed_yes};
ghost use Rattle.api.specs.Called.{StepCalled};
ghost use Rattle.api.specs.Given.{settings_given, limits_given};

use crate::settings;
use crate::settings::{LimitsNumbers, SettingsNumbers};
use answers::{OpenedAnswer, SealedAnswer, SteppedAnswer};

// A simulation begins, whatever was in the area before.
pub fn sim_start(
    area: &mut [u8],
    settings: SettingsNumbers,
    limits: LimitsNumbers,
    seed: u64,
) -> OpenedAnswer
    ensures { (result, area.new) ≡ starting opened_no opened_yes area.old (start (settings_given settings) (limits_given limits) seed) }
{
    let config = settings::settings_given(settings);
    let capacity = settings::limits_given(limits);
    sim_start::start_in(area, config, capacity, seed)
}

// The first event at or before the deadline happens; where there is none, the time rises to the deadline. The bytes of a message go to the buffer.
pub fn sim_step(area: &mut [u8], deadline: u64, buffer: &mut [u8]) -> SteppedAnswer
    ensures { StepCalled area.old area.new deadline buffer.old buffer.new result }
{
    let g = state_gate::gate(area);
    sim_step::step_in(area, g, deadline, buffer)
}

// The node has returned: whether it refused its input, and which leader it named. The input's writes are synced, or cut.
pub fn sim_seal(area: &mut [u8], refused: u64, present: u64, leader: u64) -> SealedAnswer
    ensures { (result, area.new) ≡ call sealed_no sealed_yes area.old (seal refused present leader) }
{
    let g = state_gate::gate(area);
    sim_seal::seal_in(area, g, refused, present, leader)
}

// The outputs are over; the node's status. What is owed goes on.
pub fn sim_end(
    area: &mut [u8],
    role: u64,
    term: u64,
    present: u64,
    leader: u64,
    commit: u64,
) -> OpenedAnswer
    ensures { (result, area.new) ≡ call opened_no opened_yes area.old (end role (record { 0 = term }) present leader (record { 0 = commit })) }
{
    let g = state_gate::gate(area);
    sim_end::end_in(area, g, role, term, present, leader, commit)
}
