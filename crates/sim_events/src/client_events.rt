// The events of clients: each changes the state, and opens no input.
ghost use Rattle.std.specs.Prelude.{[], ◌<◌};
ghost use Rattle.queue.specs.declared.Event.TheVariants.{ClientSend, ClientRedirect, ClientRetry, ClientReply, ClientTimeout};
ghost use Rattle.state.specs.Changes.{Inside};
ghost use Rattle.sim_outputs.specs.Outputs.{Passed};
ghost use Rattle.sim_owed.specs.Servers.{Opens};
ghost use Rattle.sim_events.specs.Moves.{processed};

use answers::InputNumbers;
use sim_clients::{redirects, replies};
use sim_owed::closes;
use state::Capacity;
use units::{LogIndex, NodeId};

// A client begins its next command.
pub fn send_event(area: &mut [u8], f: Capacity, c: u64) -> InputNumbers
    requires passed { Passed area.old f }
    requires c_lt_clients { c < f.clients }
    ensures { Opens area.old area.new f result (processed (ClientSend c) []) }
{
    sim_clients::client_send(area, f, c);
    closes::close_phase(area, f)
}

// A redirect reaches its client.
pub fn redirect_event(
    area: &mut [u8],
    f: Capacity,
    c: u64,
    attempt: u64,
    hint: Option<NodeId>,
) -> InputNumbers
    requires passed { Passed area.old f }
    requires c_lt_clients { c < f.clients }
    ensures { Opens area.old area.new f result (processed (ClientRedirect c attempt hint) []) }
{
    redirects::client_redirect(area, f, c, attempt, hint);
    closes::close_phase(area, f)
}

// A client's backoff ends.
pub fn retry_event(area: &mut [u8], f: Capacity, c: u64, attempt: u64) -> InputNumbers
    requires passed { Passed area.old f }
    requires c_lt_clients { c < f.clients }
    ensures { Opens area.old area.new f result (processed (ClientRetry c attempt) []) }
{
    sim_clients::client_retry(area, f, c, attempt);
    closes::close_phase(area, f)
}

// A reply reaches its client.
pub fn reply_event(area: &mut [u8], f: Capacity, c: u64, seq: u64, index: LogIndex) -> InputNumbers
    requires inside { Inside area.old f }
    requires c_lt_clients { c < f.clients }
    ensures { Opens area.old area.new f result (processed (ClientReply c seq index) []) }
{
    replies::client_reply(area, f, c, seq, index);
    closes::close_phase(area, f)
}

// A command's timeout.
pub fn timeout_event(area: &mut [u8], f: Capacity, c: u64, attempt: u64) -> InputNumbers
    requires passed { Passed area.old f }
    requires c_lt_clients { c < f.clients }
    ensures { Opens area.old area.new f result (processed (ClientTimeout c attempt) []) }
{
    sim_clients::client_timeout(area, f, c, attempt);
    closes::close_phase(area, f)
}
