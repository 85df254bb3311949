// The calls that change a run, made with a row's arguments, each family in one function.
ghost use Rattle.std.specs.Prelude.{◌≤◌};

use crate::call::{Check, Direct, Output, Write};
use crate::row::Row;
use crate::told;
use api::{direct, outputs, requested, run, writes};

// A start.
pub fn started(row: Row<'_>, area: &mut [u8]) -> bool {
    let settings = row.settings();
    let limits = row.limits();
    told::opened(
        row.answer,
        run::sim_start(area, settings, limits, row.number(20)),
    )
}

// A step, whose message goes to the buffer: of a delivery, kind 2 in the C interface, as many bytes as its second number says.
fn stepped_in(row: Row<'_>, area: &mut [u8], buffer: &mut [u8]) -> bool {
    let a = run::sim_step(area, row.number(0), buffer);
    let i = a.input;
    let size = if i.kind == 2 { i.second } else { 0 };
    told::numbers_and_bytes(
        row.answer,
        &[
            a.refusal, a.taken, i.kind, i.server, i.first, i.second, i.third, size,
        ],
        size,
        buffer,
    )
}

// A step, with a buffer of this length.
pub fn stepped(row: Row<'_>, area: &mut [u8], longest: usize) -> bool
    requires { longest ≤ 4096 }
{
    let mut buffer = [165u8; 4096];
    stepped_in(row, area, &mut buffer[0..longest])
}

// A seal.
pub fn sealed(row: Row<'_>, area: &mut [u8]) -> bool {
    let refused = row.number(0);
    let present = row.number(1);
    told::sealed(
        row.answer,
        run::sim_seal(area, refused, present, row.number(2)),
    )
}

// An end.
pub fn ended(row: Row<'_>, area: &mut [u8]) -> bool {
    let a = run::sim_end(
        area,
        row.number(0),
        row.number(1),
        row.number(2),
        row.number(3),
        row.number(4),
    );
    told::opened(row.answer, a)
}

// The direct calls.
pub fn direct_call(call: Direct, row: Row<'_>, area: &mut [u8]) -> bool {
    let server = row.number(0);
    let other = row.number(1);
    match call {
        Direct::Propose => told::opened(row.answer, direct::sim_propose(area, server)),
        Direct::FireTimer => told::opened(row.answer, direct::sim_fire_timer(area, server, other)),
        Direct::ConfirmLeadership => told::opened(
            row.answer,
            direct::sim_confirm_leadership(area, server, other),
        ),
    }
}

// A fault scheduled.
pub fn scheduled(row: Row<'_>, area: &mut [u8]) -> bool {
    let groups = row.bytes(4);
    let a = direct::sim_schedule(
        area,
        row.number(0),
        row.number(1),
        row.number(2),
        row.number(3),
        groups,
    );
    told::done(row.answer, a)
}

// The writes.
pub fn write(call: Write, row: Row<'_>, area: &mut [u8]) -> bool {
    let first = row.number(0);
    let second = row.number(1);
    let third = row.number(2);
    let payload = row.bytes(3);
    match call {
        Write::HardState => told::done(
            row.answer,
            writes::sim_write_hard_state(area, first, second, third),
        ),
        Write::Put => told::done(
            row.answer,
            writes::sim_write_put(area, first, second, third, payload),
        ),
        Write::Truncate => told::done(row.answer, writes::sim_write_truncate(area, first)),
    }
}

// A message sent: its receiver, its bytes, and behind them its entries.
pub fn sent(row: Row<'_>, area: &mut [u8]) -> bool {
    let message = row.bytes(1);
    let n = row.given.len() / 8;
    if n == 0 {
        return false;
    }
    let a = outputs::sim_output_send(area, row.number(0), message, row.number(n - 1));
    told::done(row.answer, a)
}

// The other outputs.
pub fn output(call: Output, row: Row<'_>, area: &mut [u8]) -> bool {
    let first = row.number(0);
    let second = row.number(1);
    let payload = row.bytes(2);
    match call {
        Output::SetTimer => told::done(
            row.answer,
            outputs::sim_output_set_timer(area, first, second),
        ),
        Output::CancelTimer => told::done(
            row.answer,
            outputs::sim_output_cancel_timer(area, first),
        ),
        Output::Apply => told::done(
            row.answer,
            outputs::sim_output_apply(area, first, second, payload),
        ),
        Output::Confirmed => told::done(
            row.answer,
            outputs::sim_output_confirmed(area, first, second),
        ),
        Output::Lost => told::done(row.answer, outputs::sim_output_lost(area, first)),
    }
}

// The checks on request.
pub fn check(call: Check, row: Row<'_>, area: &mut [u8]) -> bool {
    match call {
        Check::LogMatching => told::done(row.answer, requested::sim_check_log_matching(area)),
        Check::Durability => told::done(row.answer, requested::sim_check_durability(area)),
    }
}
