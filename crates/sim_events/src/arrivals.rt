// A client's command reaches a server: where it runs its key is registered, and a proposal opens.
ghost use Rattle.std.specs.Prelude.{[], ◌<◌};
ghost use Rattle.queue.specs.declared.Event.TheVariants.{ClientArrive};
ghost use Rattle.state.specs.Changes.{Inside, Reads};
ghost use Rattle.sim_owed.specs.Servers.{Opens};
ghost use Rattle.sim_events.specs.Moves.{processed, arrive_test};

use crate::{open_proposal, runs_at};
use answers::{InputNumbers, opened};
use client::ClientKey;
use sim_owed::closes;
use state::Capacity;
use units::NodeId;

// Whether the state after a command's arrival fits.
pub fn arrive_fits(area: &[u8], f: Capacity, slot: u64, c: u64, seq: u64) -> bool
    requires inside { Inside area.now f }
    requires slot_lt_servers { slot < f.servers }
    requires c_lt_clients { c < f.clients }
    ensures { Reads area.now f result (arrive_test slot c seq) }
{
    if !runs_at(area, f, slot) {
        return true;
    }
    let key = ClientKey {
        client: c as u32,
        seq,
    };
    state_server::pending_room(area, f, slot as usize, key)
}

// A command reaches a server (client_arrive).
pub fn arrive_event(
    area: &mut [u8],
    f: Capacity,
    slot: u64,
    c: u64,
    seq: u64,
    attempt: u64,
) -> InputNumbers
    requires inside { Inside area.old f }
    requires slot_lt_servers { slot < f.servers }
    requires c_lt_clients { c < f.clients }
    ensures { Opens area.old area.new f result (processed (ClientArrive slot c seq attempt) []) }
{
    if !runs_at(area, f, slot) {
        return closes::close_phase(area, f);
    }
    let key = ClientKey {
        client: c as u32,
        seq,
    };
    state_server::register(area, f, slot as usize, key);
    open_proposal(area, f, slot, c, seq, attempt);
    opened::proposal_input(NodeId(slot + 1), c, seq)
}
