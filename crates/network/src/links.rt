// A link between two servers.
ghost use Rattle.std.specs.Prelude.{◌≡◌, ◌≤◌, ◌<◌};

use units::NodeId;

// The link from one server to another, or to itself, in a cluster of at most 8.
#[derive(Clone, Copy)]
pub struct Link {
    pub from: NodeId,
    pub to: NodeId,
    pub ghost ends: { ((1 ≤ from.0) × (from.0 ≤ 8)) × ((1 ≤ to.0) × (to.0 ≤ 8)) },
}

impl Link {
    ghost use Rattle.network.specs.Network.{link};

    // Its place among the blocked ones.
    #[tactic(auto, unfolding(crate::specs::Network::link))]
    pub(crate) fn place(self) -> usize
        ensures { (result ≡ link self.from self.to) × (result < 64) }
    {
        (8 * (self.from.0 - 1) + (self.to.0 - 1)) as usize
    }
}
