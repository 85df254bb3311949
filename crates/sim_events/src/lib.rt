// What an event does once it is taken (process of simulation.rs), over an area: the state after it, and the input that it opens. Whether
// that state fits is asked before the event is taken.
#![tactic(auto)]

ghost use Rattle.std.specs.Prelude.{◌≡◌, [], ◌<◌};
ghost use Rattle.queue.specs.declared.Event.TheVariants.{Start, Timer as TimerEvent};
ghost use Rattle.state.specs.Changes.{Inside, Reads, Changes};
ghost use Rattle.sim_owed.specs.Servers.{Opens};
ghost use Rattle.sim_owed.specs.Closes.{runs_at};
ghost use Rattle.sim_events.specs.Moves.{
  processed,
  fresh_in,
  fires_in,
  input_opened,
  message_open,
  timer_open,
  proposal_open,
};

use answers::{InputNumbers, opened};
use protocol::Timer;
use sim_owed::{Owed, closes, servers};
use state::{Capacity, OpenInput, ServerState};
use units::NodeId;

pub mod deliveries; // a message that reaches a server
pub mod arrivals; // a client's command that reaches a server
pub mod client_events; // the events of clients

// Whether the server at a place runs.
pub fn runs_at(area: &[u8], f: Capacity, slot: u64) -> bool
    requires inside { Inside area.now f }
    requires slot_lt_servers { slot < f.servers }
    ensures { Reads area.now f result (runs_at slot) }
{
    let status = state_server::status_of(area, f, slot as usize);
    state_server::runs(status)
}

// ---- inputs that open

// A server's input is open: its kind, and of a client's proposal its client, sequence number and attempt.
fn opened_input(slot: u64, input: u64, client: u64, seq: u64, attempt: u64) -> OpenInput
    ensures { result ≡ input_opened slot input client seq attempt }
{
    OpenInput {
        phase: 1,
        slot,
        input,
        client,
        seq,
        attempt,
        verdict: 0,
        leader: 0,
        owed: 0,
        next: 0,
    }
}

// A message's input opens.
fn open_message(area: &mut [u8], f: Capacity, slot: u64)
    requires { Inside area.old f }
    ensures { Changes area.old area.new f (message_open slot) }
{
    let input = opened_input(slot, 1, 0, 0, 0);
    state_header::set_open(area, f, input);
}

// A timer's input opens.
fn open_timer(area: &mut [u8], f: Capacity, slot: u64)
    requires { Inside area.old f }
    ensures { Changes area.old area.new f (timer_open slot) }
{
    let input = opened_input(slot, 2, 0, 0, 0);
    state_header::set_open(area, f, input);
}

// A client's proposal opens.
fn open_proposal(area: &mut [u8], f: Capacity, slot: u64, client: u64, seq: u64, attempt: u64)
    requires { Inside area.old f }
    ensures { Changes area.old area.new f (proposal_open slot client seq attempt) }
{
    let input = opened_input(slot, 4, client, seq, attempt);
    state_header::set_open(area, f, input);
}

// ---- a server's first start

// Whether a server has never started.
fn fresh(x: ServerState) -> bool
    ensures { result ≡ fresh_in x }
{
    let status = x.status;
    let running = state_server::runs(status);
    !running & (x.incarnation == 0)
}

// A server starts, if it has never started (process, Start).
pub fn start_event(area: &mut [u8], f: Capacity, slot: u64) -> InputNumbers
    requires inside { Inside area.old f }
    requires slot_lt_servers { slot < f.servers }
    ensures { Opens area.old area.new f result (processed (Start slot) []) }
{
    let x = state_server::server_of(area, f, slot as usize);
    if fresh(x) {
        return servers::start_server(area, f, slot, Owed::Nothing);
    }
    closes::close_phase(area, f)
}

// ---- a timer

// Whether a timer's event is of its last generation, and its server runs.
fn fires(x: ServerState, timer: Timer, generation: u64) -> bool
    ensures { result ≡ fires_in x timer generation }
{
    let status = x.status;
    let running = state_server::runs(status);
    match timer {
        Timer::Election => running & (x.election == generation),
        Timer::Heartbeat => running & (x.heartbeat == generation),
    }
}

// A timer's input opens, if its event is of the last generation (process, Timer).
pub fn timer_event(
    area: &mut [u8],
    f: Capacity,
    slot: u64,
    timer: Timer,
    generation: u64,
) -> InputNumbers
    requires inside { Inside area.old f }
    requires slot_lt_servers { slot < f.servers }
    ensures { Opens area.old area.new f result (processed (TimerEvent slot timer generation) []) }
{
    let x = state_server::server_of(area, f, slot as usize);
    if fires(x, timer, generation) {
        open_timer(area, f, slot);
        return opened::timer_input(NodeId(slot + 1), timer);
    }
    closes::close_phase(area, f)
}
