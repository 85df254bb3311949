// The checks on request (check_log_matching and check_durability of simulation.rs), behind the gate.
#![tactic(auto)]

ghost use Rattle.state.specs.Changes.{Inside, Reads};
ghost use Rattle.sim_checks.specs.Steps.{closed_of};

use state::Capacity;

pub mod matching; // every pair of logs
pub mod durability; // every acknowledged command on every server

// Whether no input is open.
pub fn is_closed(area: &[u8], f: Capacity) -> bool
    requires { Inside area.now f }
    ensures { Reads area.now f result closed_of }
{
    let open = state_header::open_of(area, f);
    open.phase == 0
}
