// A message reaches a server: a stopped one loses it.
ghost use Rattle.std.specs.Prelude.{◌≡◌};
ghost use Rattle.queue.specs.declared.Event.TheVariants.{Deliver};
ghost use Rattle.state.specs.Changes.{Inside, Reads, Changes};
ghost use Rattle.sim_events.specs.Moves.{
  role_contends,
  status_contends,
  ServerId,
  delivery_room,
  deliver_test,
  delivery_counted,
  Processes,
};

use crate::open_message;
use answers::{InputNumbers, opened};
use protocol::{Role, Status};
use sim_owed::closes;
use state::Capacity;
use state_server::runs;
use units::NodeId;

// Whether a role takes part in an election or leads.
fn role_contends(role: Role) -> bool
    ensures { result ≡ role_contends role }
{
    match role {
        Role::Follower => false,
        Role::Candidate => true,
        Role::Leader => true,
    }
}

// Whether a server takes part in an election or leads.
fn contends(status: Option<Status>) -> bool
    ensures { result ≡ status_contends status }
{
    match status {
        None => false,
        Some(x) => {
            let role = x.role;
            role_contends(role)
        }
    }
}

// Whether the counters take so many entries more that reach a leader.
fn delivery_room(area: &[u8], f: Capacity, entries: u64) -> bool
    requires { Inside area.now f }
    ensures { Reads area.now f result (delivery_room entries) }
{
    let m = state_header::metrics_of(area, f);
    m.deliver_to_leader(entries).is_some()
}

// Whether the state after a message with so many entries fits.
pub fn deliver_fits(area: &[u8], f: Capacity, to: NodeId, entries: u64) -> bool
    requires inside { Inside area.now f }
    requires server_id { ServerId f to }
    ensures { Reads area.now f result (deliver_test to entries) }
{
    let status = state_server::status_of(area, f, (to.0 - 1) as usize);
    if !contends(status) {
        return true;
    }
    delivery_room(area, f, entries)
}

// The entries of a message that reaches a leader are counted.
fn count_delivery(area: &mut [u8], f: Capacity, due: bool, entries: u64)
    requires { Inside area.old f }
    ensures { Changes area.old area.new f (delivery_counted due entries) }
{
    if !due {
        return;
    }
    let m = state_header::metrics_of(area, f);
    let next = m.deliver_to_leader(entries).unwrap_or(m);
    state_header::set_metrics(area, f, next);
}

// A message of so many bytes reaches a server (deliver).
pub fn deliver_event(
    area: &mut [u8],
    f: Capacity,
    from: NodeId,
    to: NodeId,
    entries: u64,
    size: u64,
) -> InputNumbers
    requires inside { Inside area.old f }
    requires server_id { ServerId f to }
    ensures { Processes area.old area.new f result (Deliver from to entries) size }
{
    let slot = to.0 - 1;
    let status = state_server::status_of(area, f, slot as usize);
    if !runs(status) {
        return closes::close_phase(area, f);
    }
    let due = contends(status);
    count_delivery(area, f, due, entries);
    open_message(area, f, slot);
    opened::message_input(to, from, size, entries)
}
