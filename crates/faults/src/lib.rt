// Faults: scheduled changes to servers and the network (faults.rs).
#![tactic(auto)]

ghost use Rattle.std.specs.Prelude.{◌≡◌, ◌≤◌};
ghost use Rattle.std.specs.Result.{result_ok};
ghost use Rattle.faults.specs.Fault.{numbers_of, fault_of, in_cluster, groups_in, targets_known, within_limits, fault_in_range};

use units::{Duration, NodeId};

// A change to the simulated environment.
#[derive(Clone, Copy)]
pub enum Fault {
    // Stop a server between inputs.
    Crash(NodeId),
    // Stop a server in its next input, before its writes are synced.
    CrashDuringNextInput(NodeId),
    // Restart a stopped server from its storage.
    Restart(NodeId),
    // Stop the server that leads the highest term, and restart it after downtime.
    CrashLeader { downtime: Duration },
    // Block every link between servers in different groups, in both directions. Group i is byte i, lowest first; its bit k is server k + 1.
    Partition(u64),
    // Block the link from one server to another, in that direction only.
    Block { from: NodeId, to: NodeId },
    // Unblock the link from one server to another.
    Unblock { from: NodeId, to: NodeId },
    // Unblock every link.
    HealLinks,
    // Drop each message with this probability, in parts per million.
    SetLoss(u32),
    // Deliver a second copy of each message with this probability, in parts per million.
    SetDuplication(u32),
    // Multiply every message delay by this factor.
    SetDelayFactor(u64),
    // End every fault, and restart every stopped server.
    HealAll,
}

// A fault as numbers: its kind in order of declaration from 0, and two numbers, 0 where it has fewer.
#[derive(Clone, Copy)]
pub struct FaultNumbers {
    pub kind: u64,
    pub first: u64,
    pub second: u64,
}

// Three numbers.
fn numbers(kind: u64, first: u64, second: u64) -> FaultNumbers
    ensures { result ≡ record { kind = kind; first = first; second = second } }
{
    FaultNumbers {
        kind,
        first,
        second,
    }
}

impl From<Fault> for FaultNumbers {
    ghost from_gives = { λ fault n. n ≡ numbers_of fault };

    fn from(fault: Fault) -> FaultNumbers {
        match fault {
            Fault::Crash(server) => numbers(0, server.0, 0),
            Fault::CrashDuringNextInput(server) => numbers(1, server.0, 0),
            Fault::Restart(server) => numbers(2, server.0, 0),
            Fault::CrashLeader { downtime } => numbers(3, downtime.0, 0),
            Fault::Partition(groups) => numbers(4, groups, 0),
            Fault::Block { from, to } => numbers(5, from.0, to.0),
            Fault::Unblock { from, to } => numbers(6, from.0, to.0),
            Fault::HealLinks => numbers(7, 0, 0),
            Fault::SetLoss(rate) => numbers(8, rate as u64, 0),
            Fault::SetDuplication(rate) => numbers(9, rate as u64, 0),
            Fault::SetDelayFactor(factor) => numbers(10, factor, 0),
            Fault::HealAll => numbers(11, 0, 0),
        }
    }
}

// The fault of three numbers.
impl TryFrom<FaultNumbers> for Fault {
    type Error = ();

    ghost try_from_gives = { λ numbers fault. result_ok fault ≡ fault_of numbers.kind numbers.first numbers.second };

    #[tactic(auto, using(crate::specs::Laws::arm))]
    fn try_from(numbers: FaultNumbers) -> Result<Fault, ()> {
        let first = numbers.first;
        let second = numbers.second;
        let alone = second == 0;
        let bare = (first == 0) & (second == 0);
        match numbers.kind {
            0 if alone => Ok(Fault::Crash(NodeId(first))),
            1 if alone => Ok(Fault::CrashDuringNextInput(NodeId(first))),
            2 if alone => Ok(Fault::Restart(NodeId(first))),
            3 if alone => Ok(Fault::CrashLeader {
                downtime: Duration(first),
            }),
            4 if alone => Ok(Fault::Partition(first)),
            5 => Ok(Fault::Block {
                from: NodeId(first),
                to: NodeId(second),
            }),
            6 => Ok(Fault::Unblock {
                from: NodeId(first),
                to: NodeId(second),
            }),
            7 if bare => Ok(Fault::HealLinks),
            8 if alone => u32::try_from(first).map(Fault::SetLoss).map_err(|_| ()),
            9 if alone => u32::try_from(first)
                .map(Fault::SetDuplication)
                .map_err(|_| ()),
            10 if alone => Ok(Fault::SetDelayFactor(first)),
            11 if bare => Ok(Fault::HealAll),
            _ => Err(()),
        }
    }
}

// Whether a server is in a cluster of so many servers.
pub fn in_cluster(servers: u64, id: NodeId) -> bool
    ensures { result ≡ in_cluster servers id }
{
    (1..=servers).contains(&id.0)
}

// Whether no group of a partition, of eight bits each, has a member outside the cluster.
fn groups_in(groups: u64, servers: u64) -> bool
    ensures { result ≡ groups_in 8 groups servers }
{
    groups
        .to_le_bytes()
        .iter()
        .all(|group| u64::from(*group) >> servers.min(8) == 0)
}

// Whether every server that a fault names is in the cluster.
#[tactic(auto, using(crate::specs::Laws::both_is))]
pub fn targets_known(servers: u64, fault: Fault) -> bool
    ensures { result ≡ targets_known servers fault }
{
    match fault {
        Fault::Crash(server) | Fault::CrashDuringNextInput(server) | Fault::Restart(server) => {
            in_cluster(servers, server)
        }
        Fault::Partition(groups) => groups_in(groups, servers),
        Fault::Block { from, to } | Fault::Unblock { from, to } => {
            in_cluster(servers, from) & in_cluster(servers, to)
        }
        Fault::CrashLeader { .. }
        | Fault::HealLinks
        | Fault::SetLoss(_)
        | Fault::SetDuplication(_)
        | Fault::SetDelayFactor(_)
        | Fault::HealAll => true,
    }
}

// Whether a fault's other numbers are within limits.
pub fn within_limits(fault: Fault) -> bool
    ensures { result ≡ within_limits fault }
{
    match fault {
        Fault::CrashLeader { downtime } => downtime.0 <= 1099511627776,
        Fault::SetDelayFactor(factor) => factor <= 65536,
        Fault::Crash(_)
        | Fault::CrashDuringNextInput(_)
        | Fault::Restart(_)
        | Fault::Partition(_)
        | Fault::Block { .. }
        | Fault::Unblock { .. }
        | Fault::HealLinks
        | Fault::SetLoss(_)
        | Fault::SetDuplication(_)
        | Fault::HealAll => true,
    }
}

// Whether a fault is in range in a cluster of so many servers.
#[tactic(auto, using(crate::specs::Laws::both_is))]
pub fn fault_in_range(servers: u64, fault: Fault) -> bool
    ensures { result ≡ fault_in_range servers fault }
{
    targets_known(servers, fault) & within_limits(fault)
}
