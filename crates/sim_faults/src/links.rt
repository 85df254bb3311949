// Faults of the network.
ghost use Rattle.std.specs.Prelude.{◌≡◌, true};
ghost use Rattle.faults.specs.Fault.{fault_in_range};
ghost use Rattle.faults.specs.declared.Fault.TheVariants.{HealAll};
ghost use Rattle.state.specs.Changes.{Inside};
ghost use Rattle.sim_owed.specs.Servers.{Opens};
ghost use Rattle.sim_faults.specs.Faults.{fault_at, network_after, network_move, Aimed};

use answers::InputNumbers;
use faults::Fault;
use network::{Link, Network};
use sim_owed::closes;
use state::Capacity;

// The network after a fault of it; any other fault leaves it.
fn network_after(n: Network, fault: Fault) -> Network
    requires { Aimed fault }
    ensures { result ≡ network_after fault n }
{
    match fault {
        Fault::Crash(_) => n,
        Fault::CrashDuringNextInput(_) => n,
        Fault::Restart(_) => n,
        Fault::CrashLeader { downtime: _ } => n,
        Fault::Partition(groups) => n.partition(groups),
        Fault::Block { from, to } => n.block(Link { from, to }),
        Fault::Unblock { from, to } => n.unblock(Link { from, to }),
        Fault::HealLinks => n.heal_links(),
        Fault::SetLoss(rate) => n.set_loss(rate),
        Fault::SetDuplication(rate) => n.set_duplication(rate),
        Fault::SetDelayFactor(factor) => n.set_delay_factor(factor),
        Fault::HealAll => n.heal_all(),
    }
}

// A fault of the network happens; no input opens.
pub fn network_fault(area: &mut [u8], f: Capacity, fault: Fault) -> InputNumbers
    requires inside { Inside area.old f }
    requires fault_value { fault_in_range f.servers fault ≡ true }
    ensures { Opens area.old area.new f result (network_move fault) }
{
    let n = state_header::network_of(area, f);
    let next = network_after(n, fault);
    state_header::set_network(area, f, next);
    closes::close_phase(area, f)
}

// Every fault ends: the network is healed, and one server after another.
pub fn heal_all(area: &mut [u8], f: Capacity) -> InputNumbers
    requires { Inside area.old f }
    ensures { Opens area.old area.new f result (fault_at HealAll) }
{
    let n = state_header::network_of(area, f);
    state_header::set_network(area, f, n.heal_all());
    closes::heal_from(area, f, 0)
}
