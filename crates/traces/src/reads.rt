// The reads, made with a row's arguments: what a server has, and what the run has.
ghost use Rattle.std.specs.Prelude.{◌≤◌};

use crate::call::{EntryRead, RunRead, ServerRead};
use crate::row::Row;
use crate::told;
use answers::{
    HardStateAnswer, LogAnswer, MetricsAnswer, ReplyAnswer, RunAnswer, SettingsAnswer,
    StatusAnswer, ViolationAnswer,
};
use api::reads;

fn status(answer: &[u8], a: StatusAnswer) -> bool {
    told::numbers(
        answer,
        &[
            a.refusal, a.running, a.role, a.term, a.hinted, a.leader, a.commit, 0,
        ],
    )
}

fn hard_state(answer: &[u8], a: HardStateAnswer) -> bool {
    told::numbers(answer, &[a.refusal, a.term, a.voted, a.vote, 0])
}

fn log(answer: &[u8], a: LogAnswer) -> bool {
    told::numbers(answer, &[a.refusal, a.count, a.last, a.gaps, 0])
}

fn metrics(answer: &[u8], a: MetricsAnswer) -> bool {
    told::numbers(
        answer,
        &[
            a.refusal,
            a.messages,
            a.bytes,
            a.entries,
            a.entries_to_leaders,
            a.fsyncs,
            a.storage_bytes,
            a.client_replies,
            a.discarded,
            a.max_log_gaps,
            0,
        ],
    )
}

fn reply(answer: &[u8], a: ReplyAnswer) -> bool {
    told::numbers(
        answer,
        &[
            a.refusal, a.present, a.sent, a.received, a.index, a.client, a.sequence, 0,
        ],
    )
}

fn violation(answer: &[u8], a: ViolationAnswer) -> bool {
    let n = a.numbers;
    told::numbers(
        answer,
        &[
            a.refusal, a.present, a.time, a.check, a.count, n[0], n[1], n[2], n[3], n[4], 0,
        ],
    )
}

fn run(answer: &[u8], a: RunAnswer) -> bool {
    told::numbers(
        answer,
        &[
            a.refusal,
            a.now,
            a.events,
            a.seed,
            a.phase,
            a.server,
            a.input,
            a.queued,
            a.replies,
            a.confirmations,
            a.violations,
            0,
        ],
    )
}

fn settings(answer: &[u8], a: SettingsAnswer) -> bool {
    told::numbers(
        answer,
        &[
            a.refusal,
            a.servers,
            a.clients,
            a.log_indexes,
            a.payload,
            a.message,
            a.events,
            a.writes,
            a.history,
            0,
        ],
    )
}

fn leader(answer: &[u8], area: &[u8]) -> bool {
    let a = reads::sim_read_leader(area);
    told::numbers(answer, &[a.refusal, a.present, a.server, a.term, 0])
}

fn applied(answer: &[u8], area: &[u8], server: u64) -> bool {
    let a = reads::sim_read_applied(area, server);
    told::numbers(answer, &[a.refusal, a.index, 0])
}

fn sent_by(answer: &[u8], area: &[u8], server: u64) -> bool {
    let a = reads::sim_read_sent_by(area, server);
    told::numbers(answer, &[a.refusal, a.messages, a.bytes, a.entries, 0])
}

fn confirmation(answer: &[u8], area: &[u8], place: u64) -> bool {
    let a = reads::sim_read_confirmation(area, place);
    told::numbers(
        answer,
        &[
            a.refusal,
            a.present,
            a.request,
            a.confirmed,
            a.read_index,
            0,
        ],
    )
}

// The reads of a server.
pub fn of_server(call: ServerRead, row: Row<'_>, area: &[u8]) -> bool {
    let server = row.number(0);
    match call {
        ServerRead::Status => status(row.answer, reads::sim_read_status(area, server)),
        ServerRead::HardState => hard_state(row.answer, reads::sim_read_hard_state(area, server)),
        ServerRead::Log => log(row.answer, reads::sim_read_log(area, server)),
        ServerRead::Applied => applied(row.answer, area, server),
        ServerRead::SentBy => sent_by(row.answer, area, server),
    }
}

// The reads of a run.
pub fn of_run(call: RunRead, row: Row<'_>, area: &[u8]) -> bool {
    let place = row.number(0);
    match call {
        RunRead::Leader => leader(row.answer, area),
        RunRead::Metrics => metrics(row.answer, reads::sim_read_metrics(area)),
        RunRead::Reply => reply(row.answer, reads::sim_read_reply(area, place)),
        RunRead::Confirmation => confirmation(row.answer, area, place),
        RunRead::Violation => violation(row.answer, reads::sim_read_violation(area, place)),
        RunRead::Run => run(row.answer, reads::sim_read_run(area)),
        RunRead::Settings => settings(row.answer, reads::sim_read_settings(area)),
    }
}

// An entry of a log: a command goes to the buffer.
fn entry(row: Row<'_>, area: &[u8], buffer: &mut [u8]) -> bool {
    let a = reads::sim_read_entry(area, row.number(0), row.number(1), buffer);
    told::numbers_and_bytes(
        row.answer,
        &[a.refusal, a.present, a.term, a.kind, a.length, a.length],
        a.length,
        buffer,
    )
}

// An applied entry: a command goes to the buffer.
fn applied_entry(row: Row<'_>, area: &[u8], buffer: &mut [u8]) -> bool {
    let a = reads::sim_read_applied_entry(area, row.number(0), buffer);
    told::numbers_and_bytes(
        row.answer,
        &[a.refusal, a.present, a.kind, a.length, a.length],
        a.length,
        buffer,
    )
}

// The reads of an entry, with a buffer of this length.
pub fn with_buffer(call: EntryRead, row: Row<'_>, area: &[u8], longest: usize) -> bool
    requires { longest ≤ 4096 }
{
    let mut buffer = [165u8; 4096];
    match call {
        EntryRead::Log => entry(row, area, &mut buffer[0..longest]),
        EntryRead::Applied => applied_entry(row, area, &mut buffer[0..longest]),
    }
}
