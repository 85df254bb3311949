// The reads of what a run reports (violations, metrics and applied payloads of simulation.rs), behind the gate.
#![tactic(auto)]

ghost use Rattle.std.specs.Prelude.{◌≡◌};
ghost use Rattle.model.specs.Reads.{read_violation, read_metrics};
ghost use Rattle.state.specs.Changes.{Inside, Gated, Reads};
ghost use Rattle.state.specs.Call.{reading};
ghost use Rattle.answers.specs.Answers.{violation_no, violation_yes, metrics_no, metrics_yes, applied_entry_no};
ghost use Rattle.sim_reads_report.specs.Report.{violation_given, metrics_told, kind_given, applied_given, AppliedRead};

use answers::{AppliedEntryAnswer, MetricsAnswer, ViolationAnswer};
use checks::violations::Violation;
use layout::marked::Kind;
use state::{Capacity, Gate};
use units::LogIndex;

// ---- violations

// A refused read of a violation, or that there is none at a place.
fn violation_no(refusal: u64) -> ViolationAnswer
    ensures { result ≡ violation_no refusal }
{
    ViolationAnswer {
        refusal,
        present: 0,
        time: 0,
        check: 0,
        count: 0,
        numbers: [0, 0, 0, 0, 0],
    }
}

// A violation that may be absent in numbers.
fn violation_yes(violation: Option<Violation>) -> ViolationAnswer
    ensures { result ≡ violation_given violation }
{
    match violation {
        None => violation_no(0),
        Some(v) => {
            let numbers = v.numbers;
            ViolationAnswer {
                refusal: 0,
                present: 1,
                time: v.time.0,
                check: v.check,
                count: v.count,
                numbers,
            }
        }
    }
}

// A violation that is kept, by its place from 0.
pub fn read_violation_in(area: &[u8], g: Gate, place: u64) -> ViolationAnswer
    requires { Gated area.now g }
    ensures { result ≡ reading violation_no violation_yes area.now (read_violation place) }
{
    let refusal = g.refusal;
    let f = g.capacity;
    if 0 < refusal {
        return violation_no(refusal);
    }
    let violation = state_records::violation_of(area, f, place as usize);
    violation_yes(violation)
}

// ---- metrics

// A refused read of the metrics.
fn metrics_no(refusal: u64) -> MetricsAnswer
    ensures { result ≡ metrics_no refusal }
{
    MetricsAnswer {
        refusal,
        messages: 0,
        bytes: 0,
        entries: 0,
        entries_to_leaders: 0,
        fsyncs: 0,
        storage_bytes: 0,
        client_replies: 0,
        discarded: 0,
        max_log_gaps: 0,
    }
}

// The counters in numbers, with the entries discarded and the greatest gaps of a log.
fn metrics_told(area: &[u8], f: Capacity, discarded: u64, gaps: u64) -> MetricsAnswer
    requires { Inside area.now f }
    ensures { Reads area.now f result (metrics_told discarded gaps) }
{
    let m = state_header::metrics_of(area, f);
    let sent = m.sent;
    MetricsAnswer {
        refusal: 0,
        messages: sent.messages,
        bytes: sent.bytes,
        entries: sent.entries,
        entries_to_leaders: m.entries_to_leaders,
        fsyncs: m.fsyncs,
        storage_bytes: m.storage_bytes,
        client_replies: m.client_replies,
        discarded,
        max_log_gaps: gaps,
    }
}

// The counters so far; 10 where the entries that all servers have discarded pass 64 bits together.
pub fn read_metrics_in(area: &[u8], g: Gate) -> MetricsAnswer
    requires { Gated area.now g }
    ensures { result ≡ reading metrics_no metrics_yes area.now read_metrics }
{
    let refusal = g.refusal;
    let f = g.capacity;
    if 0 < refusal {
        return metrics_no(refusal);
    }
    let sum = state_records::discarded_of(area, f);
    let fits = sum.fits;
    if !fits {
        return metrics_no(10);
    }
    let run = state_header::run_of(area, f);
    metrics_told(area, f, sum.value, run.max_log_gaps)
}

// ---- applied payloads

// A refused read of an applied payload, or that there is none at an index.
fn applied_entry_no(refusal: u64) -> AppliedEntryAnswer
    ensures { result ≡ applied_entry_no refusal }
{
    AppliedEntryAnswer {
        refusal,
        present: 0,
        kind: 0,
        length: 0,
    }
}

// A payload in numbers.
fn applied_some(kind: Kind) -> AppliedEntryAnswer
    ensures { result ≡ kind_given kind }
{
    match kind {
        Kind::Noop => AppliedEntryAnswer {
            refusal: 0,
            present: 1,
            kind: 0,
            length: 0,
        },
        Kind::Command(n) => AppliedEntryAnswer {
            refusal: 0,
            present: 1,
            kind: 1,
            length: n as u64,
        },
    }
}

// A payload that may be absent in numbers.
fn applied_entry_yes(payload: Option<Kind>) -> AppliedEntryAnswer
    ensures { result ≡ applied_given payload }
{
    match payload {
        None => applied_entry_no(0),
        Some(kind) => applied_some(kind),
    }
}

// The first payload that any server applied at an index; the bytes of a command go to the front of the buffer.
pub fn read_applied_entry_in(
    area: &[u8],
    g: Gate,
    index: u64,
    buffer: &mut [u8],
) -> AppliedEntryAnswer
    requires { Gated area.now g }
    ensures { AppliedRead area.now index buffer.old buffer.new result }
{
    let refusal = g.refusal;
    let f = g.capacity;
    if 0 < refusal {
        return applied_entry_no(refusal);
    }
    let limits = f.limits;
    if (buffer.len() as u64) < limits.payload {
        return applied_entry_no(9);
    }
    let payload = state_records::read_applied(area, f, LogIndex(index), buffer);
    applied_entry_yes(payload)
}
