// The reads of one server (storage, status, applied and sent_by of simulation.rs), behind the gate.
#![tactic(auto)]

ghost use Rattle.std.specs.Prelude.{◌≡◌, ◌-◌, ◌<◌, Some};
ghost use Rattle.model.specs.Reads.{read_hard_state, read_log, read_status, read_applied, read_sent_by};
ghost use Rattle.state.specs.Changes.{Inside, Gated, Reads};
ghost use Rattle.state.specs.Call.{reading};
ghost use Rattle.answers.specs.Answers.{nodePresent, nodeId, hard_state_no, hard_state_yes, log_no, log_yes, status_no, status_yes, applied_no, applied_yes, sent_by_no, sent_by_yes, entry_no};
ghost use Rattle.sim_reads.specs.Servers.{AsksServer, log_read, status_given, sent_at, entry_given, EntryRead};

use answers::{AppliedAnswer, EntryAnswer, HardStateAnswer, LogAnswer, SentByAnswer, StatusAnswer};
use metrics::Counts;
use protocol::Status;
use raft_log::EntryShape;
use state::{Capacity, Gate};
use state_disk::LogNumbers;
use storage::HardState;
use units::{LogIndex, NodeId, PayloadShape};

// What a read asks of its server: 0, or 7; the server's place.
#[derive(Clone, Copy)]
pub struct ServerAsked {
    pub code: u64,
    pub slot: u64,
}

// Question 7 of a read.
fn server_asked(f: Capacity, server: u64) -> ServerAsked
    ensures { AsksServer f server result }
{
    if server < 1 {
        return ServerAsked { code: 7, slot: 0 };
    }
    if f.servers < server {
        return ServerAsked { code: 7, slot: 0 };
    }
    ServerAsked {
        code: 0,
        slot: server - 1,
    }
}

// Whether a server is named.
fn node_present(node: Option<NodeId>) -> u64
    ensures { result ≡ nodePresent node }
{
    match node {
        None => 0,
        Some(_) => 1,
    }
}

// Its id, or 0.
fn node_id(node: Option<NodeId>) -> u64
    ensures { result ≡ nodeId node }
{
    match node {
        None => 0,
        Some(id) => id.0,
    }
}

// ---- term and vote

// A refused read of term and vote.
fn hard_state_no(refusal: u64) -> HardStateAnswer
    ensures { result ≡ hard_state_no refusal }
{
    HardStateAnswer {
        refusal,
        term: 0,
        voted: 0,
        vote: 0,
    }
}

// Term and vote in numbers.
fn hard_state_yes(state: HardState) -> HardStateAnswer
    ensures { result ≡ hard_state_yes state }
{
    let vote = state.voted_for;
    HardStateAnswer {
        refusal: 0,
        term: state.term.0,
        voted: node_present(vote),
        vote: node_id(vote),
    }
}

// A server's term and vote as written so far.
pub fn read_hard_state_in(area: &[u8], g: Gate, server: u64) -> HardStateAnswer
    requires { Gated area.now g }
    ensures { result ≡ reading hard_state_no hard_state_yes area.now (read_hard_state server) }
{
    let refusal = g.refusal;
    let f = g.capacity;
    if 0 < refusal {
        return hard_state_no(refusal);
    }
    let asked = server_asked(f, server);
    let code = asked.code;
    let slot = asked.slot;
    if 0 < code {
        return hard_state_no(code);
    }
    let v = state_disk::storage_of(area, f, slot as usize);
    hard_state_yes(v.current)
}

// ---- the log

// A refused read of a log's size.
fn log_no(refusal: u64) -> LogAnswer
    ensures { result ≡ log_no refusal }
{
    LogAnswer {
        refusal,
        count: 0,
        last: 0,
        gaps: 0,
    }
}

// A log's size in numbers.
fn log_yes(log: LogNumbers) -> LogAnswer
    ensures { result ≡ log_yes (log_read log) }
{
    LogAnswer {
        refusal: 0,
        count: log.count,
        last: log.last.0,
        gaps: log.gaps,
    }
}

// The size of a server's log as written so far.
pub fn read_log_in(area: &[u8], g: Gate, server: u64) -> LogAnswer
    requires { Gated area.now g }
    ensures { result ≡ reading log_no log_yes area.now (read_log server) }
{
    let refusal = g.refusal;
    let f = g.capacity;
    if 0 < refusal {
        return log_no(refusal);
    }
    let asked = server_asked(f, server);
    let code = asked.code;
    let slot = asked.slot;
    if 0 < code {
        return log_no(code);
    }
    let log = state_disk::log_numbers(area, f, slot as usize);
    log_yes(log)
}

// ---- the status

// A refused read of a status, or that a server does not run.
fn status_no(refusal: u64) -> StatusAnswer
    ensures { result ≡ status_no refusal }
{
    StatusAnswer {
        refusal,
        running: 0,
        role: 0,
        term: 0,
        hinted: 0,
        leader: 0,
        commit: 0,
    }
}

// A running server's status in numbers.
fn status_some(status: Status) -> StatusAnswer
    ensures { result ≡ status_yes (Some status) }
{
    let role = status.role;
    let leader = status.leader;
    StatusAnswer {
        refusal: 0,
        running: 1,
        role: u64::from(role),
        term: status.term.0,
        hinted: node_present(leader),
        leader: node_id(leader),
        commit: status.commit_index.0,
    }
}

// A status that may be absent in numbers.
fn status_yes(status: Option<Status>) -> StatusAnswer
    ensures { result ≡ status_given status }
{
    match status {
        None => status_no(0),
        Some(x) => status_some(x),
    }
}

// A server's status, none while it is stopped or starting.
pub fn read_status_in(area: &[u8], g: Gate, server: u64) -> StatusAnswer
    requires { Gated area.now g }
    ensures { result ≡ reading status_no status_yes area.now (read_status server) }
{
    let refusal = g.refusal;
    let f = g.capacity;
    if 0 < refusal {
        return status_no(refusal);
    }
    let asked = server_asked(f, server);
    let code = asked.code;
    let slot = asked.slot;
    if 0 < code {
        return status_no(code);
    }
    let status = state_server::status_of(area, f, slot as usize);
    status_yes(status)
}

// ---- what is applied

// The number before another; before 0 is 0.
fn before(n: u64) -> u64
    ensures { result ≡ n - 1 }
{
    if n < 1 { 0 } else { n - 1 }
}

// A refused read of what is applied.
fn applied_no(refusal: u64) -> AppliedAnswer
    ensures { result ≡ applied_no refusal }
{
    AppliedAnswer { refusal, index: 0 }
}

// What is applied in numbers.
fn applied_yes(index: u64) -> AppliedAnswer
    ensures { result ≡ applied_yes index }
{
    AppliedAnswer { refusal: 0, index }
}

// The highest index that a server has applied since it last started.
pub fn read_applied_in(area: &[u8], g: Gate, server: u64) -> AppliedAnswer
    requires { Gated area.now g }
    ensures { result ≡ reading applied_no applied_yes area.now (read_applied server) }
{
    let refusal = g.refusal;
    let f = g.capacity;
    if 0 < refusal {
        return applied_no(refusal);
    }
    let asked = server_asked(f, server);
    let code = asked.code;
    let slot = asked.slot;
    if 0 < code {
        return applied_no(code);
    }
    let v = state_server::server_of(area, f, slot as usize);
    applied_yes(before(v.next_apply))
}

// ---- what is sent

// What the server at a place has sent.
fn sent_at(area: &[u8], f: Capacity, k: u64) -> Counts
    requires inside { Inside area.now f }
    requires k_lt_servers { k < f.servers }
    ensures { Reads area.now f result (sent_at k) }
{
    let m = state_header::metrics_of(area, f);
    m.sent_by(NodeId(k + 1))
}

// A refused read of what a server has sent.
fn sent_by_no(refusal: u64) -> SentByAnswer
    ensures { result ≡ sent_by_no refusal }
{
    SentByAnswer {
        refusal,
        messages: 0,
        bytes: 0,
        entries: 0,
    }
}

// What a server has sent in numbers.
fn sent_by_yes(sent: Counts) -> SentByAnswer
    ensures { result ≡ sent_by_yes sent }
{
    SentByAnswer {
        refusal: 0,
        messages: sent.messages,
        bytes: sent.bytes,
        entries: sent.entries,
    }
}

// What one server has sent.
pub fn read_sent_by_in(area: &[u8], g: Gate, server: u64) -> SentByAnswer
    requires { Gated area.now g }
    ensures { result ≡ reading sent_by_no sent_by_yes area.now (read_sent_by server) }
{
    let refusal = g.refusal;
    let f = g.capacity;
    if 0 < refusal {
        return sent_by_no(refusal);
    }
    let asked = server_asked(f, server);
    let code = asked.code;
    let slot = asked.slot;
    if 0 < code {
        return sent_by_no(code);
    }
    let sent = sent_at(area, f, slot);
    sent_by_yes(sent)
}

// ---- an entry of the log

// A refused read of an entry, or that there is none at an index.
fn entry_no(refusal: u64) -> EntryAnswer
    ensures { result ≡ entry_no refusal }
{
    EntryAnswer {
        refusal,
        present: 0,
        term: 0,
        kind: 0,
        length: 0,
    }
}

// What stands at an index in numbers.
fn entry_yes(entry: Option<EntryShape>) -> EntryAnswer
    ensures { result ≡ entry_given entry }
{
    let Some(entry) = entry else {
        return entry_no(0);
    };
    let term = entry.term.0;
    match entry.payload {
        PayloadShape::Noop => EntryAnswer {
            refusal: 0,
            present: 1,
            term,
            kind: 0,
            length: 0,
        },
        PayloadShape::Command { length } => EntryAnswer {
            refusal: 0,
            present: 1,
            term,
            kind: 1,
            length: length as u64,
        },
    }
}

// The entry at an index of a server's log as written so far; the bytes of a command go to the front of the buffer.
pub fn read_entry_in(
    area: &[u8],
    g: Gate,
    server: u64,
    index: u64,
    buffer: &mut [u8],
) -> EntryAnswer
    requires { Gated area.now g }
    ensures { EntryRead area.now server index buffer.old buffer.new result }
{
    let refusal = g.refusal;
    let f = g.capacity;
    if 0 < refusal {
        return entry_no(refusal);
    }
    let asked = server_asked(f, server);
    let code = asked.code;
    let slot = asked.slot;
    if 0 < code {
        return entry_no(code);
    }
    let limits = f.limits;
    if (buffer.len() as u64) < limits.payload {
        return entry_no(9);
    }
    let place = state_disk::read_entry(area, f, slot as usize, LogIndex(index), buffer);
    entry_yes(place)
}
