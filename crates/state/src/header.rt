// The structs of the header, each in a region of its own: what is read and written there.
ghost use Rattle.std.specs.Prelude.{◌≡◌, ◌≤◌, length};
ghost use Rattle.words.specs.Words.{W, bytes};
ghost use Rattle.state.specs.Parts.{capacity_in, settings_in, run_in, run_words, counts_in, counts_words, open_in, open_words};

use crate::{Capacity, OpenInput, Run, TableCounts};
use config::{Config, Limits, SimConfig};
use rng::Rng;
use units::{Duration, SimTime};

// The limits that the header says.
fn load_limits(s: &[u8]) -> Limits
    requires { 64 ≤ length s.now }
    ensures { result ≡ (capacity_in (W s.now)).limits }
{
    Limits {
        log_indexes: words::load(s, 2),
        payload: words::load(s, 3),
        message: words::load(s, 4),
        events: words::load(s, 5),
        writes: words::load(s, 6),
        history: words::load(s, 7),
    }
}

// The counts that the header says.
pub fn load_capacity(s: &[u8]) -> Capacity
    requires { 64 ≤ length s.now }
    ensures { result ≡ capacity_in (W s.now) }
{
    Capacity {
        servers: words::load(s, 0),
        clients: words::load(s, 1),
        limits: load_limits(s),
    }
}

// The servers' settings.
fn load_consensus(s: &[u8], f: Capacity) -> Config
    requires { 96 ≤ length s.now }
    ensures { result ≡ (settings_in f (W s.now)).consensus }
{
    Config {
        heartbeat_interval: Duration(words::load(s, 0)),
        election_timeout_min: Duration(words::load(s, 1)),
        election_timeout_max: Duration(words::load(s, 2)),
        max_entries_per_message: words::load(s, 3),
        max_entries_in_flight: words::load(s, 4),
    }
}

// The settings, with the counts.
pub fn load_settings(s: &[u8], f: Capacity) -> SimConfig
    requires { 96 ≤ length s.now }
    ensures { result ≡ settings_in f (W s.now) }
{
    SimConfig {
        servers: f.servers,
        consensus: load_consensus(s, f),
        one_way_delay: Duration(words::load(s, 5)),
        clients: f.clients,
        command_bytes: words::load(s, 6),
        client_timeout: Duration(words::load(s, 7)),
        client_backoff: Duration(words::load(s, 8)),
        count_bytes: words::load(s, 9),
        raft_checks: words::load(s, 10),
        start_spread: Duration(words::load(s, 11)),
    }
}

// The numbers of the run.
pub fn load_run(s: &[u8]) -> Run
    requires { 48 ≤ length s.now }
    ensures { result ≡ run_in (W s.now) }
{
    Run {
        seed: words::load(s, 0),
        now: SimTime(words::load(s, 1)),
        workload: Rng {
            state: words::load(s, 2),
        },
        max_log_gaps: words::load(s, 3),
        direct_seq: words::load(s, 4),
        events: words::load(s, 5),
    }
}

// Writes them.
pub fn store_run(s: &mut [u8], run: Run)
    requires { length s.old ≡ 48 }
    ensures { s.new ≡ bytes (run_words run) }
{
    let row = [
        run.seed,
        run.now.0,
        run.workload.state,
        run.max_log_gaps,
        run.direct_seq,
        run.events,
    ];
    words::store_all(s, 0, &row);
}

// How many rows the tables have.
pub fn load_counts(s: &[u8]) -> TableCounts
    requires { 64 ≤ length s.now }
    ensures { result ≡ counts_in (W s.now) }
{
    TableCounts {
        queue: words::load(s, 0),
        seen: words::load(s, 1),
        leaders: words::load(s, 2),
        replies: words::load(s, 3),
        confirmations: words::load(s, 4),
        applied: words::load(s, 5),
        violations: words::load(s, 6),
        total: words::load(s, 7),
    }
}

// Writes them.
pub fn store_counts(s: &mut [u8], c: TableCounts)
    requires { length s.old ≡ 64 }
    ensures { s.new ≡ bytes (counts_words c) }
{
    let row = [
        c.queue,
        c.seen,
        c.leaders,
        c.replies,
        c.confirmations,
        c.applied,
        c.violations,
        c.total,
    ];
    words::store_all(s, 0, &row);
}

// The phase with its open input.
pub fn load_open(s: &[u8]) -> OpenInput
    requires { 80 ≤ length s.now }
    ensures { result ≡ open_in (W s.now) }
{
    OpenInput {
        phase: words::load(s, 0),
        slot: words::load(s, 1),
        input: words::load(s, 2),
        client: words::load(s, 3),
        seq: words::load(s, 4),
        attempt: words::load(s, 5),
        verdict: words::load(s, 6),
        leader: words::load(s, 7),
        owed: words::load(s, 8),
        next: words::load(s, 9),
    }
}

// Writes it.
pub fn store_open(s: &mut [u8], input: OpenInput)
    requires { length s.old ≡ 80 }
    ensures { s.new ≡ bytes (open_words input) }
{
    let row = [
        input.phase,
        input.slot,
        input.input,
        input.client,
        input.seq,
        input.attempt,
        input.verdict,
        input.leader,
        input.owed,
        input.next,
    ];
    words::store_all(s, 0, &row);
}
