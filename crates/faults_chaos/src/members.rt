// The servers of a random fault schedule, by their ids, and what is drawn of them.
ghost use Rattle.std.specs.Prelude.{◌≡◌, true, ◌<◌, ◌≤◌, ◌-◌, ◌^◌, length};
ghost use Rattle.faults_chaos.specs.Schedule.{known_ids, pick_server, pick_other, no_groups, groups_word, deal, split};
ghost use Rattle.faults_chaos.specs.Answers.{ids_of, over, with_bit, deal_one, dealt_of, held_word};

use crate::{Draws, drawn_from};
use rng::Rng;
use units::NodeId;

// One to eight servers by their ids, each from 1 to 8.
#[derive(Clone, Copy)]
pub struct Servers<'a> {
    pub ids: &'a [u8],
    pub ghost some: { 0 < length ids.now },
    pub ghost most: { length ids.now ≤ 8 },
    pub ghost known: { known_ids (ids_of ids.now) ≡ true },
}

// A group of servers as bits: all of it, all but its last server, and its last server alone.
#[derive(Clone, Copy)]
struct Group {
    all: u8,
    before: u8,
    last: u8,
}

// Two groups that servers are drawn into, and the generator after the draws.
#[derive(Clone, Copy)]
struct Dealt {
    first: Group,
    second: Group,
    next: Rng,
}

// The bit of a server in a group.
fn bit_of(server: u8) -> u8
    requires { (1 ≤ server) × (server ≤ 8) }
    ensures { result ≡ 2 ^ (server - 1) }
{
    1 << (server - 1)
}

impl Group {
    // The group with a server, by its bit, at its end.
    #[tactic(auto, unfolding(crate::specs::Answers::with_bit))]
    fn with(self, bit: u8) -> Group
        ensures { result ≡ with_bit self bit }
    {
        Group {
            all: self.all | bit,
            before: self.all,
            last: bit,
        }
    }
}

// One server drawn into one of two groups.
#[tactic(auto, unfolding(crate::specs::Answers::deal_one))]
fn deal_one(dealt: Dealt, server: u8) -> Dealt
    requires { (1 ≤ server) × (server ≤ 8) }
    ensures { result ≡ deal_one dealt (record { 0 = server }) }
{
    let side = dealt.next.drawn_under(2);
    let bit = bit_of(server);
    if side.value == 0 {
        Dealt {
            first: dealt.first.with(bit),
            second: dealt.second,
            next: side.next,
        }
    } else {
        Dealt {
            first: dealt.first,
            second: dealt.second.with(bit),
            next: side.next,
        }
    }
}

// The word of two groups; where one is empty, the last server of the other moves into it.
#[tactic(auto, unfolding(crate::specs::Answers::held_word))]
fn both_held(first: Group, second: Group) -> u64
    ensures { result ≡ held_word first second }
{
    if first.last == 0 {
        return u64::from(second.last) + 256 * u64::from(second.before);
    }
    if second.last == 0 {
        return u64::from(first.before) + 256 * u64::from(first.last);
    }
    u64::from(first.all) + 256 * u64::from(second.all)
}

impl<'a> Servers<'a> {
    // One of the servers.
    pub(crate) fn pick_server(self, g: Rng) -> Draws<NodeId>
        ensures { result ≡ pick_server (ids_of self.entry.ids.now) g }
    {
        let id = drawn_from(self.ids, g);
        id.giving(NodeId(u64::from(id.result)))
    }

    // The other end of a blocked link, drawn again while it is the first server, in at most so many draws.
    #[tactic(auto, using(crate::specs::Draws::redraw))]
    pub(crate) fn pick_other(self, most: u64, server: NodeId, g: Rng) -> Draws<Option<NodeId>>
        requires { most ≤ 64 }
        ensures result_value { result ≡ pick_other most server (ids_of self.entry.ids.now) g }
        ensures draws_bound { result.draws ≤ most }
    {
        if most == 0 {
            return Draws {
                result: None,
                draws: 0,
                next: g,
            };
        }
        let other = self.pick_server(g);
        if other.result != server {
            return Draws {
                result: Some(other.result),
                draws: 1,
                next: other.next,
            };
        }
        let rest = self.pick_other(most - 1, server, other.next);
        Draws {
            result: rest.result,
            draws: 1 + rest.draws,
            next: rest.next,
        }
    }

    // Every server drawn into one of two groups, in list order.
    #[tactic(auto, using(crate::specs::Splits::dealing))]
    fn deal(self, g: Rng) -> Dealt
        ensures { result ≡ dealt_of (deal no_groups (ids_of self.entry.ids.now) g) }
    {
        let empty = Group {
            all: 0,
            before: 0,
            last: 0,
        };
        let mut dealt = Dealt {
            first: empty,
            second: empty,
            next: g,
        };
        for server in self.ids {
            dealt = deal_one(dealt, *server);
        }
        dealt
    }

    // The word of two groups of the servers at random, neither empty.
    #[tactic(auto, using(crate::specs::Splits::split_is))]
    pub(crate) fn split(self, g: Rng) -> Draws<u64>
        ensures result_value { result ≡ over groups_word (split (ids_of self.entry.ids.now) g) }
        ensures draws_value { result.draws ≡ length self.entry.ids.now }
    {
        let dealt = self.deal(g);
        Draws {
            result: both_held(dealt.first, dealt.second),
            draws: self.ids.len() as u64,
            next: dealt.next,
        }
    }
}
