// The checks that a host asks for while no input is open.
ghost use Rattle.std.specs.Prelude.{◌≡◌};
ghost use Rattle.model.specs.Calls.{check_log_matching_call, check_durability_call};
ghost use Rattle.state.specs.Call.{call};
ghost use Rattle.answers.specs.Answers.{done_no, done_yes};

use answers::DoneAnswer;
use api::requested;

// Every pair of logs compared.
#[unsafe(no_mangle)]
pub extern "C" fn sim_check_log_matching(area: &mut [u8]) -> DoneAnswer
    ensures { (result, area.new) ≡ call done_no done_yes area.old check_log_matching_call }
{
    requested::sim_check_log_matching(area)
}

// Every acknowledged command looked for in what was applied.
#[unsafe(no_mangle)]
pub extern "C" fn sim_check_durability(area: &mut [u8]) -> DoneAnswer
    ensures { (result, area.new) ≡ call done_no done_yes area.old check_durability_call }
{
    requested::sim_check_durability(area)
}
