// One operation of checks.bin on an area, by the functions that the calls use: what is asked, and where nothing is refused what is done.
// Behind the area's gate, which every operation asks. A refusal is its number, as the functions of the area answer it; 99 is none.
ghost use Rattle.std.specs.Prelude.{◌*◌, ◌≤◌, ◌<◌, length};
ghost use Rattle.state.specs.Changes.{Inside, Gated};

use checks::violations::Violation;
use checks_durability::replies::Reply;
use protocol::{Role, Status};
use state::{Capacity, Gate, ServerState};
use storage::HardState;
use units::{LogIndex, NodeId, PayloadRef, SimTime, Term};

// ---- the numbers of a row

// The place of a server, 0 where it is none of three.
fn slot_of(server: u64) -> usize
    ensures { result < 3 }
{
    if server < 1 || 3 < server {
        return 0;
    }
    (server - 1) as usize
}

// A log index, 3 where it is greater.
fn index_of(number: u64) -> u64
    ensures { result ≤ 3 }
{
    number.min(3)
}

// The length of a command by its payload's mark, 2 and the length; at most 12.
fn command_length(mark: u64) -> usize
    ensures { result ≤ 12 }
{
    mark.saturating_sub(2).min(12) as usize
}

// ---- writes

// Puts the entry of a row: server, index, term, payload.
fn put(area: &mut [u8], f: Capacity, row: &[u8; 488]) -> u64
    requires inside { Inside area.old f }
    requires le_servers { 3 ≤ f.servers }
    requires bound { 3 ≤ f.limits.log_indexes }
    requires le_payload { 12 ≤ f.limits.payload }
{
    let k = slot_of(words::load(row, 1));
    let index = index_of(words::load(row, 2));
    let term = words::load(row, 3);
    let mark = words::load(row, 4);
    if index < 1 {
        return 99;
    }
    if mark < 2 {
        return state_disk::write_put(area, f, k, LogIndex(index), Term(term), PayloadRef::Noop);
    }
    let end = 40 + command_length(mark);
    let command = PayloadRef::Command(&row[40..end]);
    state_disk::write_put(area, f, k, LogIndex(index), Term(term), command)
}

// Checks the index of waiting write i.
fn check_write(area: &mut [u8], f: Capacity, k: usize, i: usize, time: SimTime)
    requires inside { Inside area.old f }
    requires k_lt_servers { k < f.servers }
{
    let index = state_asks::writes::written_index(area, f, k, i);
    let asked = state_asks::writes::write_asked(area, f, k, index);
    state_checks::acts::on_write_act(area, f, k, time, index, asked);
}

// Checks the index of each waiting write.
fn check_each(area: &mut [u8], f: Capacity, k: usize, time: SimTime)
    requires inside { Inside area.old f }
    requires k_lt_servers { k < f.servers }
{
    let n = state_asks::writes::write_count(area, f, k);
    for i in 0..n {
        check_write(area, f, k, i as usize, time);
    }
}

// The writes of a server checked and synced.
fn writes(area: &mut [u8], f: Capacity, k: usize, time: SimTime) -> u64
    requires inside { Inside area.old f }
    requires k_lt_servers { k < f.servers }
{
    let asked = state_asks::writes::writes_asked(area, f, k);
    let code = asked.code;
    if code != 0 {
        return code;
    }
    check_each(area, f, k, time);
    state_disk::sync(area, f, k);
    0
}

// ---- a server's state

// A server's next index to apply.
fn set_next_apply(area: &mut [u8], f: Capacity, k: usize, index: u64)
    requires inside { Inside area.old f }
    requires k_lt_servers { k < f.servers }
{
    let x = state_server::server_of(area, f, k);
    let next = ServerState {
        next_apply: index,
        ..x
    };
    state_server::set_server(area, f, k, next);
}

// The term that a server leads.
fn set_leading(area: &mut [u8], f: Capacity, k: usize, leading: Option<Term>)
    requires inside { Inside area.old f }
    requires k_lt_servers { k < f.servers }
{
    let x = state_server::server_of(area, f, k);
    state_server::set_server(area, f, k, ServerState { leading, ..x });
}

// ---- apply

// A server applied a payload, of a kind and bytes as state_asks takes it, at an index.
fn apply(
    area: &mut [u8],
    f: Capacity,
    k: usize,
    time: SimTime,
    index: LogIndex,
    kind: u64,
    src: &[u8],
) -> u64
    requires inside { Inside area.old f }
    requires k_lt_servers { k < f.servers }
    requires index_bound { index.0 ≤ 3 }
    requires kind_bound { (kind ≤ 1) × (length src.now ≤ 256 * kind) × (length src.now ≤ f.limits.payload) }
{
    let asked = state_asks::apply::apply_asked(area, f, k, index, kind, src);
    if let Err(refusal) = asked.room {
        return u64::from(refusal);
    }
    let expected = state_asks::apply::next_apply_of(area, f, k);
    let server = NodeId(k as u64 + 1);
    state_checks::acts::on_apply_act(area, f, time, server, index, expected, kind, src, asked);
    set_next_apply(area, f, k, index.0 + 1);
    0
}

// Applies the payload of a row: time, server, index, payload.
fn apply_row(area: &mut [u8], f: Capacity, row: &[u8; 488]) -> u64
    requires inside { Inside area.old f }
    requires le_servers { 3 ≤ f.servers }
    requires le_payload { 12 ≤ f.limits.payload }
{
    let time = SimTime(words::load(row, 1));
    let k = slot_of(words::load(row, 2));
    let index = LogIndex(index_of(words::load(row, 3)));
    let mark = words::load(row, 4);
    if mark < 2 {
        return apply(area, f, k, time, index, 0, b"");
    }
    let end = 40 + command_length(mark);
    apply(area, f, k, time, index, 1, &row[40..end])
}

// ---- status

// A server's status.
fn status(area: &mut [u8], f: Capacity, k: usize, time: SimTime, status: Status) -> u64
    requires inside { Inside area.old f }
    requires k_lt_servers { k < f.servers }
{
    let asked = state_asks::status::status_asked(area, f, k, status);
    let code = asked.code;
    if code != 0 {
        return code;
    }
    let server = NodeId(k as u64 + 1);
    state_checks::acts::on_status_act(area, f, time, server, status, asked);
    set_leading(area, f, k, asked.leads.then_some(status.term));
    0
}

// The status of a row: time, server, role, term. A number above a leader's is a leader's.
fn status_row(area: &mut [u8], f: Capacity, row: &[u8; 488]) -> u64
    requires inside { Inside area.old f }
    requires le_servers { 3 ≤ f.servers }
{
    let role = Role::try_from(words::load(row, 3)).unwrap_or(Role::Leader);
    let time = SimTime(words::load(row, 1));
    let k = slot_of(words::load(row, 2));
    let reported = Status {
        role,
        term: Term(words::load(row, 4)),
        leader: None,
        commit_index: LogIndex(0),
    };
    status(area, f, k, time, reported)
}

// ---- durability

// A command acknowledged: index, client, sequence.
fn reply(area: &mut [u8], f: Capacity, index: u64, client: u64, seq: u64) -> u64
    requires { Inside area.old f }
{
    let reply = Reply {
        sent: SimTime(0),
        received: SimTime(0),
        index: LogIndex(index),
        client,
        seq,
    };
    state_records::append_reply(area, f, reply);
    0
}

// The time set; gives what the gate then answers.
fn gate_at(area: &mut [u8], f: Capacity, time: u64) -> Gate
    requires { Inside area.old f }
    ensures { Gated area.new result }
{
    state_header::set_now(area, f, SimTime(time));
    state_gate::gate(area)
}

// Durability checked at a time.
fn durability(area: &mut [u8], f: Capacity, time: u64) -> u64
    requires { Inside area.old f }
{
    let g = gate_at(area, f, time);
    sim_checks::durability::check_durability_in(area, g).refusal
}

// Log matching checked at a time.
fn matching(area: &mut [u8], f: Capacity, time: u64) -> u64
    requires { Inside area.old f }
{
    let g = gate_at(area, f, time);
    sim_checks::matching::check_log_matching_in(area, g).refusal
}

// ---- a row

// A row's operation that asks nothing, by its kind and a number: a server stops or loses its writes, or the total is set.
fn plain(area: &mut [u8], f: Capacity, row: &[u8; 488])
    requires inside { Inside area.old f }
    requires le_servers { 3 ≤ f.servers }
{
    let number = words::load(row, 1);
    let k = slot_of(number);
    match words::load(row, 0) {
        5 => set_leading(area, f, k, checks_on_status::on_stop()),
        8 => state_disk::crash(area, f, k),
        9 => words::store(area, 90, number),
        _ => {}
    }
}

// The hard state of a term without a vote.
fn state_of(term: u64) -> HardState {
    HardState {
        term: Term(term),
        voted_for: None,
    }
}

// A row's operation, its kind and three numbers. No enum of the kinds: it would be matched once, right after the match that reads it.
fn operate(area: &mut [u8], f: Capacity, row: &[u8; 488]) -> u64
    requires inside { Inside area.old f }
    requires le_servers { 3 ≤ f.servers }
    requires bound { 3 ≤ f.limits.log_indexes }
    requires le_payload { 12 ≤ f.limits.payload }
{
    let first = words::load(row, 1);
    let second = words::load(row, 2);
    let k = slot_of(first);
    match words::load(row, 0) {
        1 => put(area, f, row),
        2 => writes(area, f, slot_of(second), SimTime(first)),
        3 => apply_row(area, f, row),
        4 => status_row(area, f, row),
        6 => reply(area, f, first, second, words::load(row, 3)),
        7 => durability(area, f, first),
        11 => state_disk::write_truncate(area, f, k, LogIndex(second)),
        12 => state_disk::write_hard_state(area, f, k, state_of(second)),
        13 => matching(area, f, first),
        _ => {
            plain(area, f, row);
            0
        }
    }
}

// A row's operation where the gate accepts the area; gives the refusal, or 99.
pub fn made(area: &mut [u8], row: &[u8; 488]) -> u64 {
    let g = state_gate::gate(area);
    let f = g.capacity;
    let limits = f.limits;
    if 0 < g.refusal {
        return 99;
    }
    if f.servers < 3 || limits.log_indexes < 3 || limits.payload < 12 {
        return 99;
    }
    operate(area, f, row)
}

// ---- what a row tells

// Whether a row tells a violation that there is.
fn violation_told(v: Violation, row: &[u8; 488]) -> bool {
    (words::load(row, 15) == 1)
        & (v.time.0 == words::load(row, 16))
        & (v.check == words::load(row, 17))
        & (v.count == words::load(row, 18))
        & (0..5).all(|i: usize| v.numbers[i] == words::load(row, 19 + i))
}

// Whether a row tells the violation at its place.
fn place_told(area: &[u8], f: Capacity, row: &[u8; 488]) -> bool
    requires inside { Inside area.now f }
{
    let place = words::load(row, 8);
    match state_records::violation_of(area, f, place as usize) {
        None => words::all_zero(&row[120..192]),
        Some(v) => violation_told(v, row),
    }
}

// Whether a row tells the total and how many rows the tables have.
fn counts_told(area: &[u8], f: Capacity, row: &[u8; 488]) -> bool
    requires inside { Inside area.now f }
{
    let counts = state_header::counts_of(area, f);
    (counts.total == words::load(row, 10))
        & (counts.violations == words::load(row, 11))
        & (counts.applied == words::load(row, 12))
        & (counts.seen == words::load(row, 13))
        & (counts.leaders == words::load(row, 14))
}

// Whether the gate accepts the area, and a row tells its counts and the violation at the row's place.
pub fn told(area: &[u8], row: &[u8; 488]) -> bool {
    let g = state_gate::gate(area);
    let f = g.capacity;
    if 0 < g.refusal {
        return false;
    }
    counts_told(area, f, row) & place_told(area, f, row)
}
