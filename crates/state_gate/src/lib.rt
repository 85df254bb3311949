// Questions 4 and 5 of a lent area: whether there is room for a state, and whether its bytes are the content of one.
#![tactic(auto)]

ghost use Rattle.std.specs.Prelude.{◌≡◌};
ghost use Rattle.words.specs.Words.{W};
ghost use Rattle.state.specs.Parts.{capacity_in};
ghost use Rattle.state.specs.Changes.{Inside, Gated};
ghost use Rattle.state_gate_header.specs.Regions.{regions_ok};

mod tables; // the servers and the tables

use config::Limits;
use state::{Capacity, Gate, header};

// A refusal; the counts beside it are 0.
fn refused(refusal: u64) -> Gate
    ensures { result.refusal ≡ refusal }
{
    Gate {
        refusal,
        capacity: Capacity {
            servers: 0,
            clients: 0,
            limits: Limits {
                log_indexes: 0,
                payload: 0,
                message: 0,
                events: 0,
                writes: 0,
                history: 0,
            },
        },
    }
}

// Whether every region is a content.
fn contents(area: &[u8], f: Capacity) -> bool
    requires inside { Inside area.now f }
    requires f_value { f ≡ capacity_in (W area.now) }
    ensures { result ≡ regions_ok f area.now 0 18 }
{
    let header = state_gate_header::header(area, f);
    let servers = tables::servers(area, f);
    let tables = tables::tables(area, f);
    let spare = tables::spare(area, f);
    header & servers & tables & spare
}

// The gate: the refusal, or 0 and the counts of the state that lies there.
pub fn gate(area: &[u8]) -> Gate
    ensures { Gated area.now result }
{
    if area.len() < 4096 {
        return refused(4); // no header
    }
    let f = header::load_capacity(area);
    if !config::counts_fit(f.servers, f.clients, f.limits) {
        return refused(5); // counts outside the limits
    }
    let need = config::area_length(f.servers, f.clients, f.limits) as usize;
    if area.len() < need {
        return refused(4); // shorter than the counts ask
    }
    if !contents(area, f) {
        return refused(5); // the content of no state
    }
    Gate {
        refusal: 0,
        capacity: f,
    }
}
