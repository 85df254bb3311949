// links.bin: operations on the links of eight servers, each with the links that it leaves blocked.
use network::{Link, Network};
use rng::Rng;
use units::{Duration, NodeId};

// The network before the first row.
pub fn start() -> Network {
    Network::new(Duration(0), Rng { state: 0 })
}

// The link between two ids, unless one is no server's.
fn link_of(from: u64, to: u64) -> Option<Link> {
    if from < 1 || 8 < from || to < 1 || 8 < to {
        return None;
    }
    Some(Link {
        from: NodeId(from),
        to: NodeId(to),
    })
}

// A network after a row's operation (kind, from, to, groups): 0 partitions, 1 blocks, 3 heals, any other kind unblocks; ids that are no
// server's change nothing. No enum of the kinds: it would be matched once, right after the match that reads it.
fn after_operation(n: Network, row: &[u8; 40]) -> Network {
    let link = link_of(words::load(row, 1), words::load(row, 2));
    match words::load(row, 0) {
        0 => n.partition(words::load(row, 3)),
        1 => link.map_or(n, |link| n.block(link)),
        3 => n.heal_links(),
        _ => link.map_or(n, |link| n.unblock(link)),
    }
}

// Whether the blocked links are the bits of a word.
fn links_are(n: Network, word: u64) -> bool {
    (0..64).all(|k: usize| n.blocked[k] == ((word >> (k as u64)) % 2 == 1))
}

// A row of links.bin: an operation, and the blocked links after it.
pub fn agrees(n: &mut Network, row: &[u8; 40]) -> bool {
    *n = after_operation(*n, row);
    links_are(*n, words::load(row, 4))
}
