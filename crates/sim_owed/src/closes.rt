// What is owed once an input is closed: the construction goes on with the next server, a HealAll with the next that is stopped.
ghost use Rattle.std.specs.Prelude.{◌≡◌, ◌≤◌, ◌<◌};
ghost use Rattle.model.specs.State.{closed};
ghost use Rattle.state.specs.Changes.{Inside, Reads, Changes};
ghost use Rattle.state_header.specs.Header.{phase_set};
ghost use Rattle.sim_owed.specs.Servers.{owed_of, Opens};
ghost use Rattle.sim_owed.specs.Closes.{uncrashed_state, HealsOne, runs_as, stopped_from, heal_test, heal_at, construct_test, construct_at, close_test, idle_at, close_at};

use crate::{Owed, servers};
use answers::InputNumbers;
use state::{Capacity, OpenInput, ServerState};

// ---- nothing is owed

// No input is open.
pub fn close_phase(area: &mut [u8], f: Capacity) -> InputNumbers
    requires { Inside area.old f }
    ensures { Opens area.old area.new f result idle_at }
{
    let input = OpenInput {
        phase: 0,
        slot: 0,
        input: 0,
        client: 0,
        seq: 0,
        attempt: 0,
        verdict: 0,
        leader: 0,
        owed: 0,
        next: 0,
    };
    state_header::set_open(area, f, input);
    answers::no_input()
}

// ---- the construction

// Whether the construction can go on, behind so many pushes: after the last server each client needs room for an event.
fn construct_fits(area: &[u8], f: Capacity, place: u64, more: u64) -> bool
    requires inside { Inside area.now f }
    requires more_bound { more ≤ 64 }
    ensures { Reads area.now f result (construct_test place more) }
{
    if place < f.servers {
        return true;
    }
    state_queue::queue_room(area, f, more + f.clients)
}

// The construction from a place on: the next server's start, and after the last one the clients' first events.
pub fn construct_from(area: &mut [u8], f: Capacity, place: u64) -> InputNumbers
    requires { Inside area.old f }
    ensures { Opens area.old area.new f result (construct_at place) }
{
    if place < f.servers {
        return servers::start_server(area, f, place, Owed::Construction(place + 1));
    }
    let none = close_phase(area, f);
    state_queue::push_first_sends(area, f);
    none
}

// ---- a HealAll

// Whether the server at a place runs, if the one at `slot` does as told.
fn runs_as(area: &[u8], f: Capacity, place: u64, slot: u64, running: bool) -> bool
    requires inside { Inside area.now f }
    requires place_lt_servers { place < f.servers }
    ensures { Reads area.now f result (runs_as place slot running) }
{
    if place == slot {
        return running;
    }
    let status = state_server::status_of(area, f, place as usize);
    state_server::runs(status)
}

// The first place from one on where a server is stopped, if the one at `slot` runs as told; else the place behind the last server.
fn first_stopped(area: &[u8], f: Capacity, place: u64, slot: u64, running: bool) -> u64
    requires { Inside area.now f }
    ensures { Reads area.now f result (stopped_from place slot running) }
{
    for k in place..f.servers {
        if !runs_as(area, f, k, slot, running) {
            return k;
        }
    }
    place.max(f.servers)
}

// Whether a HealAll can go on: the first server that is stopped can restart.
pub fn heal_fits(area: &[u8], f: Capacity, place: u64, slot: u64, running: bool) -> bool
    requires { Inside area.now f }
    ensures { Reads area.now f result (heal_test place slot running) }
{
    let k = first_stopped(area, f, place, slot, running);
    if k < f.servers {
        return servers::restart_fits(area, f, k);
    }
    true
}

// A server's state with its next input not cut.
fn uncrashed(x: ServerState) -> ServerState
    ensures { result ≡ uncrashed_state x }
{
    let status = x.status;
    let leading = x.leading;
    ServerState {
        status,
        incarnation: x.incarnation,
        election: x.election,
        heartbeat: x.heartbeat,
        crash_on_next_input: false,
        next_apply: x.next_apply,
        pending: x.pending,
        leading,
    }
}

// A server's crash flag is cleared; the answer is whether it runs.
fn heal_one(area: &mut [u8], f: Capacity, place: u64) -> bool
    requires inside { Inside area.old f }
    requires place_lt_servers { place < f.servers }
    ensures { HealsOne area.old area.new f place result }
{
    let x = state_server::server_of(area, f, place as usize);
    let status = x.status;
    let next = uncrashed(x);
    state_server::set_server(area, f, place as usize, next);
    state_server::runs(status)
}

// A HealAll from a place on: crash flags are cleared up to the first server that is stopped, which restarts.
pub fn heal_from(area: &mut [u8], f: Capacity, place: u64) -> InputNumbers
    requires { Inside area.old f }
    ensures { Opens area.old area.new f result (heal_at place) }
{
    for k in place..f.servers {
        if !heal_one(area, f, k) {
            return servers::restart_server(area, f, k, Owed::Healing(k + 1));
        }
    }
    close_phase(area, f)
}

// ---- an input is closed

// Whether what is owed can go on, behind so many pushes, if the server at `slot` runs as told.
pub fn close_fits(area: &[u8], f: Capacity, owed: Owed, more: u64, slot: u64, running: bool) -> bool
    requires inside { Inside area.now f }
    requires more_bound { more ≤ 64 }
    ensures { Reads area.now f result (close_test (owed_of owed) more slot running) }
{
    match owed {
        Owed::Nothing => true,
        Owed::Construction(place) => construct_fits(area, f, place, more),
        Owed::Healing(place) => heal_fits(area, f, place, slot, running),
    }
}

// An input is closed: what was owed goes on.
pub fn close_input(area: &mut [u8], f: Capacity, owed: Owed) -> InputNumbers
    requires { Inside area.old f }
    ensures { Opens area.old area.new f result (close_at (owed_of owed)) }
{
    match owed {
        Owed::Nothing => close_phase(area, f),
        Owed::Construction(place) => construct_from(area, f, place),
        Owed::Healing(place) => heal_from(area, f, place),
    }
}
