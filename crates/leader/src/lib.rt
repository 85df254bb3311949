// The leader of a cluster (simulation.rs, leader), chosen from status records.
#![tactic(auto)]

ghost use Rattle.std.specs.Prelude.{◌≡◌};
ghost use Rattle.leader.specs.Leader.{not_below, better, reported_of, zip_reported, leader};

use protocol::{Role, Status};
use units::{LogIndex, NodeId, Term};

// A running server's status.
#[derive(Clone, Copy)]
pub struct Reported {
    pub id: NodeId,
    pub status: Status,
}

// The server that leads the highest term, with that term, if any.
#[derive(Clone, Copy)]
pub struct Leading {
    pub id: NodeId,
    pub term: Term,
}

// Whether a server's term is at least that of the leader so far, if there is one.
fn not_below(best: Option<Leading>, r: Reported) -> bool
    ensures { result ≡ not_below best r }
{
    best.is_none_or(|l| l.term <= r.status.term)
}

// The leader so far, or the next server where it leads and its term is not below.
#[tactic(auto, unfolding(crate::specs::Leader::better))]
pub fn better(best: Option<Leading>, r: Reported) -> Option<Leading>
    ensures { result ≡ better best r }
{
    if r.status.role.leads() && not_below(best, r) {
        Some(Leading {
            id: r.id,
            term: r.status.term,
        })
    } else {
        best
    }
}

// The leader of a lent list of running servers: the highest term, and among equals the last.
pub fn leader(reported: &[Reported]) -> Option<Leading>
    ensures { result ≡ leader reported.now }
{
    reported.iter().fold(None, |best, r| better(best, *r))
}

// A server from its id, its role's number and its term, with what the choice of a leader does not look at left out; a number that is no
// role's counts as a follower's.
#[tactic(auto, unfolding(crate::specs::Leader::reported_of))]
fn reported_of(id: u64, role: u64, term: u64) -> Reported
    ensures { result ≡ reported_of id role term }
{
    Reported {
        id: NodeId(id),
        status: Status {
            role: Role::try_from(role).unwrap_or(Role::Follower),
            term: Term(term),
            leader: None,
            commit_index: LogIndex(0),
        },
    }
}

// The leader of servers that three lists give place by place: ids, roles' numbers and terms.
pub fn leader_of_numbers(ids: &[u64], roles: &[u64], terms: &[u64]) -> Option<Leading>
    ensures { result ≡ leader (zip_reported ids.now roles.now terms.now) }
{
    ids.iter().zip(roles).zip(terms).fold(
        None,
        |best, ((id, role), term)| better(best, reported_of(*id, *role, *term)),
    )
}
