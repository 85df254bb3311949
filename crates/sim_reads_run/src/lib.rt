// The reads of the run as a whole (leader, replies, confirmations, violations, metrics and the rest of simulation.rs), behind the gate.
#![tactic(auto)]

ghost use Rattle.std.specs.Prelude.{◌≡◌};
ghost use Rattle.model.specs.Reads.{read_leader, read_run, read_settings, read_reply, read_confirmation};
ghost use Rattle.state.specs.Changes.{Inside, Gated, Reads};
ghost use Rattle.state.specs.Call.{reading};
ghost use Rattle.answers.specs.Answers.{leader_no, leader_yes, run_no, run_yes, settings_no, settings_yes, reply_no, reply_yes, confirmation_no, confirmation_yes};
ghost use Rattle.sim_reads_run.specs.Run.{leader_given, server_number, kind_number, run_numbers, settings_read, reply_given, flag_given, index_given, confirmation_told, confirmation_given};

use answers::{ConfirmationAnswer, LeaderAnswer, ReplyAnswer, RunAnswer, SettingsAnswer};
use checks_durability::replies::Reply;
use clients::confirmations::Confirmation;
use leader::Leading;
use state::{Capacity, Gate};
use units::LogIndex;

// ---- the leader

// A refused read of the leader, or that there is none.
fn leader_no(refusal: u64) -> LeaderAnswer
    ensures { result ≡ leader_no refusal }
{
    LeaderAnswer {
        refusal,
        present: 0,
        server: 0,
        term: 0,
    }
}

// A leader that may be absent in numbers.
fn leader_yes(leader: Option<Leading>) -> LeaderAnswer
    ensures { result ≡ leader_given leader }
{
    match leader {
        None => leader_no(0),
        Some(Leading { id, term }) => LeaderAnswer {
            refusal: 0,
            present: 1,
            server: id.0,
            term: term.0,
        },
    }
}

// The running server that leads the highest term.
pub fn read_leader_in(area: &[u8], g: Gate) -> LeaderAnswer
    requires { Gated area.now g }
    ensures { result ≡ reading leader_no leader_yes area.now read_leader }
{
    let refusal = g.refusal;
    let f = g.capacity;
    if 0 < refusal {
        return leader_no(refusal);
    }
    let leader = state_server::leader_of(area, f);
    leader_yes(leader)
}

// ---- the run

// A refused read of the run.
fn run_no(refusal: u64) -> RunAnswer
    ensures { result ≡ run_no refusal }
{
    RunAnswer {
        refusal,
        now: 0,
        events: 0,
        seed: 0,
        phase: 0,
        server: 0,
        input: 0,
        queued: 0,
        replies: 0,
        confirmations: 0,
        violations: 0,
    }
}

// The server whose input is open, or 0.
fn server_number(phase: u64, slot: u64) -> u64
    ensures { result ≡ server_number phase slot }
{
    if phase == 0 {
        return 0;
    }
    if 7 < slot {
        return 0;
    }
    slot + 1
}

// The kind of the open input as the answers count it, or 0.
fn kind_number(phase: u64, input: u64) -> u64
    ensures { result ≡ kind_number phase input }
{
    if phase == 0 {
        return 0;
    }
    if input < 4 {
        return input + 1;
    }
    input
}

// The run in numbers.
fn run_numbers(area: &[u8], f: Capacity) -> RunAnswer
    requires { Inside area.now f }
    ensures { Reads area.now f result run_numbers }
{
    let run = state_header::run_of(area, f);
    let counts = state_header::counts_of(area, f);
    let open = state_header::open_of(area, f);
    let phase = open.phase;
    let server = server_number(phase, open.slot);
    let input = kind_number(phase, open.input);
    RunAnswer {
        refusal: 0,
        now: run.now.0,
        events: run.events,
        seed: run.seed,
        phase,
        server,
        input,
        queued: counts.queue,
        replies: counts.replies,
        confirmations: counts.confirmations,
        violations: counts.total,
    }
}

// The run as a whole.
pub fn read_run_in(area: &[u8], g: Gate) -> RunAnswer
    requires { Gated area.now g }
    ensures { result ≡ reading run_no run_yes area.now read_run }
{
    let refusal = g.refusal;
    let f = g.capacity;
    if 0 < refusal {
        return run_no(refusal);
    }
    run_numbers(area, f)
}

// ---- the settings

// A refused read of the settings.
fn settings_no(refusal: u64) -> SettingsAnswer
    ensures { result ≡ settings_no refusal }
{
    SettingsAnswer {
        refusal,
        servers: 0,
        clients: 0,
        log_indexes: 0,
        payload: 0,
        message: 0,
        events: 0,
        writes: 0,
        history: 0,
    }
}

// The counts of the settings in numbers.
fn settings_yes(f: Capacity) -> SettingsAnswer
    ensures { result ≡ settings_yes (settings_read f) }
{
    let limits = f.limits;
    SettingsAnswer {
        refusal: 0,
        servers: f.servers,
        clients: f.clients,
        log_indexes: limits.log_indexes,
        payload: limits.payload,
        message: limits.message,
        events: limits.events,
        writes: limits.writes,
        history: limits.history,
    }
}

// How many servers and clients there are, and the limits.
pub fn read_settings_in(area: &[u8], g: Gate) -> SettingsAnswer
    requires { Gated area.now g }
    ensures { result ≡ reading settings_no settings_yes area.now read_settings }
{
    let refusal = g.refusal;
    let f = g.capacity;
    if 0 < refusal {
        return settings_no(refusal);
    }
    settings_yes(f)
}

// ---- replies

// A refused read of a reply, or that there is none at a place.
fn reply_no(refusal: u64) -> ReplyAnswer
    ensures { result ≡ reply_no refusal }
{
    ReplyAnswer {
        refusal,
        present: 0,
        sent: 0,
        received: 0,
        index: 0,
        client: 0,
        sequence: 0,
    }
}

// A reply that may be absent in numbers.
fn reply_yes(reply: Option<Reply>) -> ReplyAnswer
    ensures { result ≡ reply_given reply }
{
    match reply {
        None => reply_no(0),
        Some(x) => ReplyAnswer {
            refusal: 0,
            present: 1,
            sent: x.sent.0,
            received: x.received.0,
            index: x.index.0,
            client: x.client,
            sequence: x.seq,
        },
    }
}

// A client's reply by its place from 0.
pub fn read_reply_in(area: &[u8], g: Gate, place: u64) -> ReplyAnswer
    requires { Gated area.now g }
    ensures { result ≡ reading reply_no reply_yes area.now (read_reply place) }
{
    let refusal = g.refusal;
    let f = g.capacity;
    if 0 < refusal {
        return reply_no(refusal);
    }
    let reply = state_records::reply_of(area, f, place as usize);
    reply_yes(reply)
}

// ---- confirmations

// A refused read of a confirmation, or that there is none at a place.
fn confirmation_no(refusal: u64) -> ConfirmationAnswer
    ensures { result ≡ confirmation_no refusal }
{
    ConfirmationAnswer {
        refusal,
        present: 0,
        request: 0,
        confirmed: 0,
        read_index: 0,
    }
}

// Whether there is a read index.
fn index_flag(index: Option<LogIndex>) -> u64
    ensures { result ≡ flag_given index }
{
    match index {
        None => 0,
        Some(_) => 1,
    }
}

// The read index, or 0.
fn index_number(index: Option<LogIndex>) -> u64
    ensures { result ≡ index_given index }
{
    match index {
        None => 0,
        Some(x) => x.0,
    }
}

// A confirmation in numbers.
fn confirmation_some(confirmation: Confirmation) -> ConfirmationAnswer
    ensures { result ≡ confirmation_told confirmation }
{
    let index = confirmation.read_index;
    ConfirmationAnswer {
        refusal: 0,
        present: 1,
        request: confirmation.request.0,
        confirmed: index_flag(index),
        read_index: index_number(index),
    }
}

// A confirmation that may be absent in numbers.
fn confirmation_yes(confirmation: Option<Confirmation>) -> ConfirmationAnswer
    ensures { result ≡ confirmation_given confirmation }
{
    match confirmation {
        None => confirmation_no(0),
        Some(x) => confirmation_some(x),
    }
}

// An answer to a request to confirm leadership, by its place from 0.
pub fn read_confirmation_in(area: &[u8], g: Gate, place: u64) -> ConfirmationAnswer
    requires { Gated area.now g }
    ensures { result ≡ reading confirmation_no confirmation_yes area.now (read_confirmation place) }
{
    let refusal = g.refusal;
    let f = g.capacity;
    if 0 < refusal {
        return confirmation_no(refusal);
    }
    let confirmation = state_records::confirmation_of(area, f, place as usize);
    confirmation_yes(confirmation)
}
