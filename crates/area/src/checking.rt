// What the checks ask of the area, and what they write in it.
ghost use Rattle.std.specs.Prelude.{◌≤◌};
ghost use Rattle.state.specs.Changes.{Inside};

use crate::{accepted, report};
use layout::marked::Kind;
use protocol::{Role, Status};
use state::Capacity;
use std::io;
use units::{LogIndex, NodeId, PayloadRef, SimTime, Term};

// The first payload applied at index 1, in order.
fn applied(area: &mut [u8]) -> bool {
    let g = state_gate::gate(area);
    let f = g.capacity;
    let limits = f.limits;
    if 0 < g.refusal {
        return false;
    }
    if f.servers < 1 {
        return false;
    }
    if limits.payload < 3 {
        return false;
    }
    first_applied(area, f)
}

// It goes to the next free place.
fn first_applied(area: &mut [u8], f: Capacity) -> bool
    requires inside { Inside area.old f }
    requires le_servers { 1 ≤ f.servers }
    requires le_payload { 3 ≤ f.limits.payload }
{
    let asked = state_asks::apply::apply_asked(area, f, 0, LogIndex(1), 1, b"abc");
    let next = asked.room.is_ok() & asked.next;
    let expected = state_asks::apply::next_apply_of(area, f, 0);
    state_checks::acts::on_apply_act(
        area,
        f,
        SimTime(7),
        NodeId(1),
        LogIndex(1),
        expected,
        1,
        b"abc",
        asked,
    );
    next & (expected == 1) & accepted(area)
}

// It can be read, with its bytes.
fn applied_read(area: &[u8]) -> bool {
    let g = state_gate::gate(area);
    let f = g.capacity;
    let limits = f.limits;
    if 0 < g.refusal {
        return false;
    }
    if 256 < limits.payload {
        return false;
    }
    let mut buffer = [0u8; 256];
    let there = match state_records::read_applied(area, f, LogIndex(1), &mut buffer) {
        None => false,
        Some(kind) => match kind {
            Kind::Noop => false,
            Kind::Command(n) => n == 3,
        },
    };
    there & (buffer[2] == 99)
}

// Another payload at the same index, too late: two violations, and nothing more to keep.
fn applied_otherwise(area: &mut [u8]) -> bool {
    let g = state_gate::gate(area);
    let f = g.capacity;
    let limits = f.limits;
    if 0 < g.refusal {
        return false;
    }
    if f.servers < 2 {
        return false;
    }
    if limits.payload < 3 {
        return false;
    }
    other_applied(area, f)
}

// Both reports are due.
fn other_applied(area: &mut [u8], f: Capacity) -> bool
    requires inside { Inside area.old f }
    requires le_servers { 2 ≤ f.servers }
    requires le_payload { 3 ≤ f.limits.payload }
{
    let asked = state_asks::apply::apply_asked(area, f, 1, LogIndex(1), 1, b"xyz");
    let both = asked.room.is_ok() & asked.late & asked.other & !asked.next;
    let expected = state_asks::apply::next_apply_of(area, f, 1);
    state_checks::acts::on_apply_act(
        area,
        f,
        SimTime(8),
        NodeId(2),
        LogIndex(1),
        expected,
        1,
        b"xyz",
        asked,
    );
    both & accepted(area)
}

// The second of them is kept at its place.
fn violation_read(area: &[u8]) -> bool {
    let g = state_gate::gate(area);
    let f = g.capacity;
    if 0 < g.refusal {
        return false;
    }
    match state_records::violation_of(area, f, 1) {
        None => false,
        Some(v) => v.time.0 == 8,
    }
}

// A leader of a new term, which lacks the applied entry.
fn status_checked(area: &mut [u8]) -> bool {
    let g = state_gate::gate(area);
    let f = g.capacity;
    if 0 < g.refusal {
        return false;
    }
    if f.servers < 2 {
        return false;
    }
    let status = Status {
        role: Role::Leader,
        term: Term(4),
        leader: None,
        commit_index: LogIndex(0),
    };
    let asked = state_asks::status::status_asked(area, f, 1, status);
    let fresh = asked.fresh & asked.lacks & (asked.missing == 1);
    state_checks::acts::on_status_act(area, f, SimTime(9), NodeId(2), status, asked);
    fresh & accepted(area)
}

// A put of the first server, asked with all writes and then seen by itself.
fn write_checked(area: &mut [u8]) -> bool {
    let g = state_gate::gate(area);
    let f = g.capacity;
    let limits = f.limits;
    if 0 < g.refusal {
        return false;
    }
    if f.servers < 1 {
        return false;
    }
    if limits.log_indexes < 1 {
        return false;
    }
    put_seen(area, f)
}

// Its entry is new.
fn put_seen(area: &mut [u8], f: Capacity) -> bool
    requires inside { Inside area.old f }
    requires le_servers { 1 ≤ f.servers }
    requires bound { 1 ≤ f.limits.log_indexes }
{
    let put = state_disk::write_put(area, f, 0, LogIndex(1), Term(4), PayloadRef::Noop);
    let all = state_asks::writes::writes_asked(area, f, 0);
    let index = state_asks::writes::written_index(area, f, 0, 0);
    let asked = state_asks::writes::write_asked(area, f, 0, index);
    state_checks::acts::on_write_act(area, f, 0, SimTime(9), index, asked);
    (put == 0) & (all.code == 0) & (all.added == 1) & (index.0 == 1) & accepted(area)
}

// The two logs: an entry each, at other indexes.
fn matching_asked(area: &mut [u8]) -> bool {
    let g = state_gate::gate(area);
    let f = g.capacity;
    if 0 < g.refusal {
        return false;
    }
    if f.servers < 2 {
        return false;
    }
    let asked = state_asks::matching::matching_asked(area, f);
    let found = state_asks::matching::mismatch_of(area, f, 0, 1);
    state_checks::acts::matching_act(area, f, SimTime(9), NodeId(1), NodeId(2), found);
    asked.room.is_ok() & (asked.reports == 0) & accepted(area)
}

// Payloads applied.
pub fn payloads(rt: &impl Print, area: &mut [u8]) -> io::Result<()> {
    report(rt, "applied", applied(area))?;
    report(rt, "applied read", applied_read(area))?;
    report(rt, "applied otherwise", applied_otherwise(area))?;
    report(rt, "violation", violation_read(area))
}

// Statuses, writes, pairs of logs.
pub fn rest(rt: &impl Print, area: &mut [u8]) -> io::Result<()> {
    report(rt, "status", status_checked(area))?;
    report(rt, "write", write_checked(area))?;
    report(rt, "log matching", matching_asked(area))
}
