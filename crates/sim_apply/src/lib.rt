// An entry applied (apply of simulation.rs), behind the gate: it is checked, the server's next index to apply is the one behind it, and where
// the server had accepted it from a client, the reply is sent.
#![tactic(auto)]

ghost use Rattle.std.specs.Prelude.{◌≡◌, ◌*◌, ◌≤◌, ◌<◌, length};
ghost use Rattle.units.specs.Types.{payload_of};
ghost use Rattle.model.specs.Calls.{output_apply};
ghost use Rattle.state.specs.Changes.{Inside, Gated, Reads, Changes};
ghost use Rattle.state.specs.Call.{call};
ghost use Rattle.answers.specs.Answers.{done_no, done_yes};
ghost use Rattle.state_asks.specs.Asks.{Asks, ApplyTold};
ghost use Rattle.sim_outputs.specs.Outputs.{Passed};
ghost use Rattle.sim_apply.specs.Applies.{
  is_payload_of,
  AsksApply,
  key_given,
  reply_due,
  reply_test,
  replied,
  next_apply_put,
  next_apply_set,
  checked_at,
  applied,
  AppliesAt,
};

use answers::DoneAnswer;
use checks_on_apply::ApplyAsked;
use client::ClientKey;
use queue::Event;
use state::{Capacity, Gate, ServerState};
use units::{LogIndex, NodeId};

// What applying asks before question 10: 0, or the refusal; the place of the server.
#[derive(Clone, Copy)]
pub struct Asked {
    pub code: u64,
    pub slot: u64,
}

// ---- what is asked

// Whether kind and size make a payload within a limit; a noop has no bytes.
fn is_payload(kind: u64, size: u64, limit: u64) -> bool
    ensures { result ≡ is_payload_of kind size limit }
{
    if kind == 0 {
        return size <= 0;
    }
    (kind <= 1) & (size <= limit)
}

// The questions before question 10, and who applies.
fn asked_of(area: &[u8], f: Capacity, index: u64, kind: u64, size: u64) -> Asked
    requires { Passed area.now f }
    ensures { AsksApply area.now f index kind size result }
{
    let limits = f.limits;
    let sender = sim_outputs::sender_of(area, f);
    let args = is_payload(kind, size, limits.payload);
    let code = sim_outputs::asks_code(8, 9, sender.ready, index <= limits.log_indexes, args);
    Asked {
        code,
        slot: sender.slot,
    }
}

// ---- the reply

// The key of a payload, if it has one: only a command has.
fn key_given(kind: u64, payload: &[u8]) -> Option<ClientKey>
    ensures { result ≡ key_given kind payload.now }
{
    if kind == 0 {
        return None;
    }
    client::decode(payload)
}

// Whether the server at a place had accepted the command of a key.
fn reply_due(area: &[u8], f: Capacity, slot: u64, key: Option<ClientKey>) -> bool
    requires inside { Inside area.now f }
    requires slot_lt_servers { slot < f.servers }
    ensures { Reads area.now f result (reply_due slot key) }
{
    match key {
        None => false,
        Some(k) => state_server::has_pending(area, f, slot as usize, k),
    }
}

// Whether the reply can be sent, where one is due.
fn reply_room(area: &[u8], f: Capacity, slot: u64, key: Option<ClientKey>) -> bool
    requires inside { Inside area.now f }
    requires slot_lt_servers { slot < f.servers }
    ensures { Reads area.now f result (reply_test slot key) }
{
    if reply_due(area, f, slot, key) {
        return sim_replies::tell_room(area, f);
    }
    true
}

// A client's command applied by a server that had accepted it: its key goes, a delay is drawn and the reply pushed.
fn reply(area: &mut [u8], f: Capacity, slot: u64, key: Option<ClientKey>, index: LogIndex)
    requires inside { Inside area.old f }
    requires slot_lt_servers { slot < f.servers }
    ensures { Changes area.old area.new f (replied slot key index) }
{
    match key {
        None => {}
        Some(k) => {
            if state_server::has_pending(area, f, slot as usize, k) {
                let event = Event::ClientReply {
                    client: k.client as u64,
                    seq: k.seq,
                    index,
                };
                sim_replies::tell_client(area, f, slot, k, event);
            }
        }
    }
}

// ---- what is done

// A server's state with another next index to apply.
fn with_next_apply(x: ServerState, index: u64) -> ServerState
    ensures { result ≡ next_apply_put x index }
{
    let status = x.status;
    let leading = x.leading;
    ServerState {
        status,
        incarnation: x.incarnation,
        election: x.election,
        heartbeat: x.heartbeat,
        crash_on_next_input: x.crash_on_next_input,
        next_apply: index,
        pending: x.pending,
        leading,
    }
}

// Another next index to apply of the server at a place.
fn set_next_apply(area: &mut [u8], f: Capacity, slot: u64, index: u64)
    requires inside { Inside area.old f }
    requires slot_lt_servers { slot < f.servers }
    ensures { Changes area.old area.new f (next_apply_set slot index) }
{
    let x = state_server::server_of(area, f, slot as usize);
    let next = with_next_apply(x, index);
    state_server::set_server(area, f, slot as usize, next);
}

// The payload checked, by the answer to what the checks ask.
fn check_apply(
    area: &mut [u8],
    f: Capacity,
    slot: u64,
    index: LogIndex,
    kind: u64,
    payload: &[u8],
    asked: ApplyAsked,
)
    requires inside { Inside area.old f }
    requires slot_lt_servers { slot < f.servers }
    requires kind_bound { (kind ≤ 1) × (length payload.now ≤ 256 * kind) × (length payload.now ≤ f.limits.payload) }
    requires asks { Asks area.old f (ApplyTold slot index (payload_of kind payload.now) asked) }
    ensures { Changes area.old area.new f (checked_at slot index (payload_of kind payload.now)) }
{
    let run = state_header::run_of(area, f);
    let expected = state_asks::apply::next_apply_of(area, f, slot as usize);
    state_checks::acts::on_apply_act(
        area,
        f,
        run.now,
        NodeId(slot + 1),
        index,
        expected,
        kind,
        payload,
        asked,
    );
}

// The payload is checked, the next index to apply set, and the reply sent.
fn apply_act(
    area: &mut [u8],
    f: Capacity,
    slot: u64,
    index: u64,
    kind: u64,
    payload: &[u8],
    asked: ApplyAsked,
)
    requires inside { Inside area.old f }
    requires slot_lt_servers { slot < f.servers }
    requires index_bound { index ≤ f.limits.log_indexes }
    requires kind_bound { (kind ≤ 1) × (length payload.now ≤ 256 * kind) × (length payload.now ≤ f.limits.payload) }
    requires asks { Asks area.old f (ApplyTold slot (record { 0 = index }) (payload_of kind payload.now) asked) }
    ensures { Changes area.old area.new f (applied slot index kind payload.now) }
{
    let key = key_given(kind, payload);
    check_apply(area, f, slot, LogIndex(index), kind, payload, asked);
    set_next_apply(area, f, slot, index + 1);
    reply(area, f, slot, key, LogIndex(index));
}

// Question 10 of an entry that the server at a place applies, and where it is answered yes, all that is done.
fn apply_at(area: &mut [u8], f: Capacity, slot: u64, index: u64, kind: u64, payload: &[u8]) -> u64
    requires inside { Inside area.old f }
    requires slot_lt_servers { slot < f.servers }
    requires index_bound { index ≤ f.limits.log_indexes }
    requires kind_bound { (kind ≤ 1) × (length payload.now ≤ 256 * kind) × (length payload.now ≤ f.limits.payload) }
    ensures { AppliesAt area.old area.new f slot index kind payload.now result }
{
    let at = slot as usize;
    let asked = state_asks::apply::apply_asked(area, f, at, LogIndex(index), kind, payload);
    match asked.room {
        Err(_) => 10,
        Ok(()) => {
            let key = key_given(kind, payload);
            let room = reply_room(area, f, slot, key);
            if !room {
                return 10;
            }
            apply_act(area, f, slot, index, kind, payload, asked);
            0
        }
    }
}

// An entry applied (Output::Apply).
pub fn output_apply_in(
    area: &mut [u8],
    g: Gate,
    index: u64,
    kind: u64,
    payload: &[u8],
) -> DoneAnswer
    requires { Gated area.old g }
    ensures { (result, area.new) ≡ call done_no done_yes area.old (output_apply (record { 0 = index }) kind payload.now) }
{
    let refusal = g.refusal;
    let f = g.capacity;
    if 0 < refusal {
        return answers::done(refusal);
    }
    let asked = asked_of(area, f, index, kind, payload.len() as u64);
    let code = asked.code;
    let slot = asked.slot;
    if 0 < code {
        return answers::done(code);
    }
    let applied = apply_at(area, f, slot, index, kind, payload);
    answers::done(applied)
}
