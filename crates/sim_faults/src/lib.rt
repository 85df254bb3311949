// Faults that happen (apply_fault of simulation.rs): whether the state that one gives fits, and what it does.
#![tactic(auto)]

ghost use Rattle.std.specs.Prelude.{◌≡◌, true};
ghost use Rattle.faults.specs.Fault.{fault_in_range};
ghost use Rattle.state.specs.Changes.{Inside, Reads};
ghost use Rattle.sim_owed.specs.Servers.{Opens};
ghost use Rattle.sim_faults.specs.Faults.{fault_at, fault_test};

use answers::InputNumbers;
use faults::Fault;
use sim_owed::closes;
use state::Capacity;
use units::SimTime;

pub mod links; // faults of the network
pub mod servers; // faults of servers

// Whether a fault that happens at a time gives a state that fits, where there is room for an event.
pub fn fault_fits(area: &[u8], f: Capacity, time: SimTime, fault: Fault) -> bool
    requires inside { Inside area.now f }
    requires fault_value { fault_in_range f.servers fault ≡ true }
    ensures { Reads area.now f result (fault_test fault time) }
{
    match fault {
        Fault::Crash(_) => true,
        Fault::CrashDuringNextInput(_) => true,
        Fault::Restart(id) => servers::restart_fits(area, f, id),
        Fault::CrashLeader { downtime } => servers::crash_leader_fits(area, f, time, downtime),
        Fault::Partition(_) => true,
        Fault::Block { from: _, to: _ } => true,
        Fault::Unblock { from: _, to: _ } => true,
        Fault::HealLinks => true,
        Fault::SetLoss(_) => true,
        Fault::SetDuplication(_) => true,
        Fault::SetDelayFactor(_) => true,
        Fault::HealAll => closes::heal_fits(area, f, 0, f.servers, true),
    }
}

// A fault happens; told is the input that it opened.
pub fn apply_fault(area: &mut [u8], f: Capacity, fault: Fault) -> InputNumbers
    requires inside { Inside area.old f }
    requires fault_value { fault_in_range f.servers fault ≡ true }
    ensures { Opens area.old area.new f result (fault_at fault) }
{
    match fault {
        Fault::Crash(id) => servers::crash(area, f, id),
        Fault::CrashDuringNextInput(id) => servers::crash_during_next_input(area, f, id),
        Fault::Restart(id) => servers::restart(area, f, id),
        Fault::CrashLeader { downtime } => servers::crash_leader(area, f, downtime),
        Fault::Partition(_) => links::network_fault(area, f, fault),
        Fault::Block { from: _, to: _ } => links::network_fault(area, f, fault),
        Fault::Unblock { from: _, to: _ } => links::network_fault(area, f, fault),
        Fault::HealLinks => links::network_fault(area, f, fault),
        Fault::SetLoss(_) => links::network_fault(area, f, fault),
        Fault::SetDuplication(_) => links::network_fault(area, f, fault),
        Fault::SetDelayFactor(_) => links::network_fault(area, f, fault),
        Fault::HealAll => links::heal_all(area, f),
    }
}
