// The checks that a host asks for while no input is open.
ghost use Rattle.std.specs.Prelude.{◌≡◌};
ghost use Rattle.model.specs.Calls.{check_log_matching_call, check_durability_call};
ghost use Rattle.state.specs.Call.{call};
ghost use Rattle.answers.specs.Answers.{done_no, done_yes};

use answers::DoneAnswer;
use sim_checks::{durability, matching};

// Every pair of logs compared.
pub fn sim_check_log_matching(area: &mut [u8]) -> DoneAnswer
    ensures { (result, area.new) ≡ call done_no done_yes area.old check_log_matching_call }
{
    let g = state_gate::gate(area);
    matching::check_log_matching_in(area, g)
}

// Every acknowledged command looked for in what was applied.
pub fn sim_check_durability(area: &mut [u8]) -> DoneAnswer
    ensures { (result, area.new) ≡ call done_no done_yes area.old check_durability_call }
{
    let g = state_gate::gate(area);
    durability::check_durability_in(area, g)
}
