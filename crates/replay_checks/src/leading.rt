// leader.bin: of each of eight servers its role and term, or that it is stopped, and who leads.
ghost use Rattle.std.specs.Prelude.{◌<◌};

use leader::{Leading, Reported};
use protocol::{Role, Status};
use units::{LogIndex, NodeId, Term};

// What a row's server k reports: 0 where it is stopped, else its role's number and 1; its term. A number above a leader's is a leader's.
fn reported(row: &[u8; 152], k: usize) -> Option<Reported>
    requires { k < 8 }
{
    let number = words::load(row, 2 * k).checked_sub(1)?;
    let role = Role::try_from(number).unwrap_or(Role::Leader);
    let status = Status {
        role,
        term: Term(words::load(row, 2 * k + 1)),
        leader: None,
        commit_index: LogIndex(0),
    };
    Some(Reported {
        id: NodeId(k as u64 + 1),
        status,
    })
}

// The leader of a row's servers.
fn leader_of(row: &[u8; 152]) -> Option<Leading> {
    (0..8)
        .filter_map(|k: usize| reported(row, k))
        .fold(None, |best, server| leader::better(best, server))
}

// The same by the lists of ids, roles' numbers as they stand and terms of the servers that run.
fn leader_listed(row: &[u8; 152]) -> Option<Leading> {
    let mut ids = [0u64; 8];
    let mut roles = [0u64; 8];
    let mut terms = [0u64; 8];
    let mut n = 0;
    for k in 0..8 {
        if let Some(server) = reported(row, k) {
            ids[n] = server.id.0;
            roles[n] = words::load(row, 2 * k).saturating_sub(1);
            terms[n] = server.status.term.0;
            n += 1;
        }
    }
    leader::leader_of_numbers(&ids[0..n], &roles[0..n], &terms[0..n])
}

// Whether the last three words of a row are a leader: 1 where there is one, its id, its term.
fn told(found: Option<Leading>, row: &[u8; 152]) -> bool {
    match found {
        None => words::zero_words(row, 16, 19),
        Some(leading) => (words::load(row, 16) == 1)
            & (words::load(row, 17) == leading.id.0)
            & (words::load(row, 18) == leading.term.0),
    }
}

// The servers, and the leader.
pub fn agrees(row: &[u8; 152]) -> bool {
    told(leader_of(row), row) & told(leader_listed(row), row)
}
