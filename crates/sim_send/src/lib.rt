// A message sent (Output::Send of simulation.rs), behind the gate: it is counted, the network draws its fate, and it is pushed as often as it
// arrives, a second copy before the original.
#![tactic(auto)]

ghost use Rattle.std.specs.Prelude.{◌≡◌, true, ◌≤◌, length};
ghost use Rattle.network.specs.declared.Route.TheVariants.{Delivered};
ghost use Rattle.model.specs.Calls.{output_send};
ghost use Rattle.state.specs.Changes.{Inside, Gated, Reads, Changes};
ghost use Rattle.state.specs.Call.{call};
ghost use Rattle.answers.specs.Answers.{done_no, done_yes};
ghost use Rattle.sim_outputs.specs.Outputs.{Passed};
ghost use Rattle.sim_send.specs.Sends.{
  AsksSend,
  Between,
  ten_if,
  MailPlanned,
  mail_count,
  MailDrawn,
  bytes_counted,
  counters_room,
  SendDrawn,
  send_routed,
  send_counted,
  mailed,
  sent,
};

use answers::DoneAnswer;
use network::{Link, Route};
use queue::Event;
use state::{Capacity, Gate};
use units::{Duration, NodeId, SimTime};

// What a sending asks before anything is drawn: 0, or the refusal; the sender's id.
#[derive(Clone, Copy)]
pub struct SendAsked {
    pub code: u64,
    pub from: u64,
}

// When a message arrives, and its second copy.
#[derive(Clone, Copy)]
pub enum Mail {
    Dropped,
    Once { at: u64 },
    Twice { at: u64, copy: u64 },
}

// The mail, if its times have 64 bits.
#[derive(Clone, Copy)]
pub struct MailPlan {
    pub fits: bool,
    pub mail: Mail,
}

// What a sending will push and count, or question 10's number.
#[derive(Clone, Copy)]
pub struct SendPlan {
    pub code: u64,
    pub bytes: u64,
    pub mail: Mail,
}

// ---- what is asked

// The questions before the draws, and who sends.
fn send_asked(area: &[u8], f: Capacity, to: u64, size: u64, entries: u64) -> SendAsked
    requires { Passed area.now f }
    ensures { AsksSend area.now f to size entries result }
{
    let limits = f.limits;
    let sender = sim_outputs::sender_of(area, f);
    let here = (1 <= to) & (to <= f.servers);
    let args = (size <= limits.message) & (entries < 4294967296);
    let code = sim_outputs::asks_code(7, 9, sender.ready, here, args);
    SendAsked {
        code,
        from: sender.slot + 1,
    }
}

// ---- what is drawn

// When a message arrives, from its delays.
fn mail_within(at: u64, delay: Duration, duplicate: Option<Duration>) -> MailPlan
    ensures { MailPlanned at (Delivered delay duplicate) result }
{
    let first = sim_outputs::sum64(at, delay.0);
    match duplicate {
        None => MailPlan {
            fits: first.fits,
            mail: Mail::Once { at: first.value },
        },
        Some(later) => {
            let second = sim_outputs::sum64(at, later.0);
            MailPlan {
                fits: first.fits & second.fits,
                mail: Mail::Twice {
                    at: first.value,
                    copy: second.value,
                },
            }
        }
    }
}

// When a routed message arrives.
fn mail_of(at: u64, route: Route) -> MailPlan
    ensures { MailPlanned at route result }
{
    match route {
        Route::Dropped => MailPlan {
            fits: true,
            mail: Mail::Dropped,
        },
        Route::Delivered { delay, duplicate } => mail_within(at, delay, duplicate),
    }
}

// How often a message arrives.
fn mail_count(mail: Mail) -> u64
    ensures { result ≡ mail_count mail }
{
    match mail {
        Mail::Dropped => 0,
        Mail::Once { at } => 1,
        Mail::Twice { at, copy } => 2,
    }
}

// When a message from one server to another arrives.
fn mail_drawn(area: &[u8], f: Capacity, from: u64, to: u64) -> MailPlan
    requires passed { Passed area.now f }
    requires between { Between from to }
    ensures { MailDrawn area.now f from to result }
{
    let n = state_header::network_of(area, f);
    let routed = n.route(Link {
        from: NodeId(from),
        to: NodeId(to),
    });
    let route = routed.route;
    let run = state_header::run_of(area, f);
    mail_of(run.now.0, route)
}

// The bytes that are counted of a message of so many: 0 where bytes are not counted.
fn bytes_counted(area: &[u8], f: Capacity, size: u64) -> u64
    requires { Inside area.now f }
    ensures { Reads area.now f result (bytes_counted size) }
{
    let settings = state_header::settings_of(area, f);
    if settings.count_bytes == 1 { size } else { 0 }
}

// Whether the counters have room for a message.
fn counters_room(area: &[u8], f: Capacity, from: u64, to: u64, bytes: u64, entries: u64) -> bool
    requires inside { Inside area.now f }
    requires between { Between from to }
    ensures { Reads area.now f result (counters_room from bytes entries) }
{
    let m = state_header::metrics_of(area, f);
    m.record_send(NodeId(from), bytes, entries).is_some()
}

// Question 10's number where something does not fit, else 0.
fn ten_if(fits: bool) -> u64
    ensures { result ≡ ten_if fits }
{
    if fits { 0 } else { 10 }
}

// What sending a message of so many bytes will push and count.
fn send_plan(area: &[u8], f: Capacity, from: u64, to: u64, size: u64, entries: u64) -> SendPlan
    requires passed { Passed area.now f }
    requires between { Between from to }
    ensures { SendDrawn area.now f from to size entries result }
{
    let bytes = bytes_counted(area, f, size);
    let fits = counters_room(area, f, from, to, bytes, entries);
    let p = mail_drawn(area, f, from, to);
    let mail = p.mail;
    let count = mail_count(mail);
    let room = state_queue::queue_room(area, f, count);
    let code = ten_if(fits & p.fits & room);
    SendPlan { code, bytes, mail }
}

// ---- what is done

// The network after its draws for a message.
fn route_send(area: &mut [u8], f: Capacity, from: u64, to: u64)
    requires passed { Passed area.old f }
    requires between { Between from to }
    ensures { Changes area.old area.new f (send_routed from to) }
{
    let n = state_header::network_of(area, f);
    let routed = n.route(Link {
        from: NodeId(from),
        to: NodeId(to),
    });
    let next = routed.network;
    state_header::set_network(area, f, next);
}

// The metrics with a message counted.
fn count_send(area: &mut [u8], f: Capacity, from: u64, to: u64, bytes: u64, entries: u64)
    requires inside { Inside area.old f }
    requires between { Between from to }
    ensures { Changes area.old area.new f (send_counted from bytes entries) }
{
    let m = state_header::metrics_of(area, f);
    let next = m.record_send(NodeId(from), bytes, entries).unwrap_or(m);
    state_header::set_metrics(area, f, next);
}

// A message pushed as often as it arrives, its second copy first.
fn push_mail(
    area: &mut [u8],
    f: Capacity,
    mail: Mail,
    from: NodeId,
    to: NodeId,
    entries: u64,
    message: &[u8],
)
    requires inside { Inside area.old f }
    requires message_len_bound { length message.now ≤ f.limits.message }
    ensures { Changes area.old area.new f (mailed mail from to entries message.now) }
{
    match mail {
        Mail::Dropped => {}
        Mail::Once { at } => {
            let event = Event::Deliver { from, to, entries };
            state_queue::push_event(area, f, SimTime(at), event, message);
        }
        Mail::Twice { at, copy } => {
            let event = Event::Deliver { from, to, entries };
            state_queue::push_event(area, f, SimTime(copy), event, message);
            state_queue::push_event(area, f, SimTime(at), event, message);
        }
    }
}

// The message is routed, counted and pushed.
fn send_act(
    area: &mut [u8],
    f: Capacity,
    mail: Mail,
    from: u64,
    to: u64,
    bytes: u64,
    entries: u64,
    message: &[u8],
)
    requires passed { Passed area.old f }
    requires between { Between from to }
    requires message_len_bound { length message.now ≤ f.limits.message }
    ensures { Changes area.old area.new f (sent mail from to bytes entries message.now) }
{
    route_send(area, f, from, to);
    count_send(area, f, from, to, bytes, entries);
    push_mail(area, f, mail, NodeId(from), NodeId(to), entries, message);
}

// A message sent to a server, with so many log entries.
pub fn output_send_in(area: &mut [u8], g: Gate, to: u64, message: &[u8], entries: u64) -> DoneAnswer
    requires { Gated area.old g }
    ensures { (result, area.new) ≡ call done_no done_yes area.old (output_send to message.now entries) }
{
    let refusal = g.refusal;
    let f = g.capacity;
    if 0 < refusal {
        return answers::done(refusal);
    }
    let size = message.len() as u64;
    let asked = send_asked(area, f, to, size, entries);
    let code = asked.code;
    let from = asked.from;
    if 0 < code {
        return answers::done(code);
    }
    let p = send_plan(area, f, from, to, size, entries);
    let ten = p.code;
    if 0 < ten {
        return answers::done(ten);
    }
    let mail = p.mail;
    send_act(area, f, mail, from, to, p.bytes, entries, message);
    answers::done(0)
}
