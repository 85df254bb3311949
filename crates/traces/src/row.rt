// A row of a trace: its call's number, its arguments, then its answer. Numbers are words; bytes are their length and then words of eight
// bytes, zeros at the end.
ghost use Rattle.std.specs.Prelude.{◌+◌, ◌*◌, ◌≤◌, length};

use crate::call::{Call, Direct, EntryRead, Output, RunRead, Write};
use api::settings::{LimitsNumbers, SettingsNumbers};

// A row: the call, its arguments, and the answer.
#[derive(Clone, Copy)]
pub struct Row<'a> {
    pub call: Call,
    pub given: &'a [u8],
    pub answer: &'a [u8],
}

// Word i of a part of a row, 0 where it has none.
fn number(s: &[u8], i: usize) -> u64 {
    if i < s.len() / 8 {
        words::load(s, i)
    } else {
        0
    }
}

// The bytes whose length is word i; none where they do not fit.
fn bytes_at(s: &[u8], i: usize) -> &[u8]
    requires { i ≤ 8 }
    ensures { length result.now ≤ length s.now }
{
    let size = number(s, i);
    let from = 8 * i + 8;
    if s.len() < from || ((s.len() - from) as u64) < size {
        return &[];
    }
    let to = from + size as usize;
    &s[from..to]
}

// How many words the bytes take whose length is word i.
fn words_behind(s: &[u8], i: usize) -> usize
    requires { i ≤ 8 }
    ensures { 8 * result ≤ length s.now + 7 }
{
    (bytes_at(s, i).len() + 7) / 8
}

// How many words a call's arguments take without their bytes: numbers, and lengths of bytes.
fn fixed(call: Call) -> usize
    ensures { result ≤ 21 }
{
    match call {
        Call::Start => 21,
        Call::Chaos => 7,
        Call::Schedule | Call::End => 5,
        Call::Write(Write::Put) => 4,
        Call::Write(Write::HardState) | Call::Seal | Call::Send | Call::Output(Output::Apply) => 3,
        Call::Direct(Direct::FireTimer)
        | Call::Direct(Direct::ConfirmLeadership)
        | Call::Output(Output::SetTimer)
        | Call::Output(Output::Confirmed)
        | Call::ReadEntry(EntryRead::Log) => 2,
        Call::Check(_)
        | Call::ReadRun(RunRead::Leader)
        | Call::ReadRun(RunRead::Metrics)
        | Call::ReadRun(RunRead::Run)
        | Call::ReadRun(RunRead::Settings) => 0,
        _ => 1,
    }
}

// How many words the bytes among a call's arguments take.
fn lent(call: Call, rest: &[u8]) -> usize
    ensures { 8 * result ≤ length rest.now + 7 }
{
    match call {
        Call::Schedule => words_behind(rest, 4),
        Call::Write(Write::Put) => words_behind(rest, 3),
        Call::Send => words_behind(rest, 1),
        Call::Output(Output::Apply) => words_behind(rest, 2),
        Call::Chaos => words_behind(rest, 0),
        _ => 0,
    }
}

// The row of its bytes, where its number is a call's; all behind that is arguments where the row is too short.
pub fn read(bytes: &[u8]) -> Option<Row<'_>> {
    if bytes.len() < 8 {
        return None;
    }
    let call = Call::try_from(words::load(bytes, 0)).ok()?;
    let rest = &bytes[8..];
    let end = (8 * (fixed(call) + lent(call, rest))).min(rest.len());
    Some(Row {
        call,
        given: &rest[0..end],
        answer: &rest[end..],
    })
}

impl<'a> Row<'a> {
    // Argument i, where each is a word; 0 where there is none.
    pub fn number(self, i: usize) -> u64 {
        number(self.given, i)
    }

    // The bytes among the arguments whose length is word i; none where they do not fit.
    pub fn bytes(self, i: usize) -> &'a [u8]
        requires { i ≤ 8 }
    {
        bytes_at(self.given, i)
    }

    // Whether the answer refuses the call.
    pub fn refused(self) -> bool {
        number(self.answer, 0) != 0
    }

    // The settings among a start's arguments.
    pub fn settings(self) -> SettingsNumbers {
        SettingsNumbers {
            servers: self.number(0),
            heartbeat_interval: self.number(1),
            election_timeout_min: self.number(2),
            election_timeout_max: self.number(3),
            max_entries_per_message: self.number(4),
            max_entries_in_flight: self.number(5),
            one_way_delay: self.number(6),
            clients: self.number(7),
            command_bytes: self.number(8),
            client_timeout: self.number(9),
            client_backoff: self.number(10),
            count_bytes: self.number(11),
            raft_checks: self.number(12),
            start_spread: self.number(13),
        }
    }

    // The limits among a start's arguments.
    pub fn limits(self) -> LimitsNumbers {
        LimitsNumbers {
            log_indexes: self.number(14),
            payload: self.number(15),
            message: self.number(16),
            events: self.number(17),
            writes: self.number(18),
            history: self.number(19),
        }
    }
}
