// The content of a new state: zeros, and then the words that are not zero, from the first on.
ghost use Rattle.std.specs.Prelude.{◌≡◌, ◌+◌, ◌*◌, ◌≤◌, ◌<◌, length};
ghost use Rattle.state.specs.Sizes.{clients_at, bytes_of};
ghost use Rattle.state.specs.Parts.{capacity_words, settings_words};
ghost use Rattle.state.specs.Changes.{Inside};
ghost use Rattle.sim_start.specs.Fill.{Clears, Writes};
ghost use Rattle.sim_start.specs.Start.{count_words, first_offsets, last_offsets, first_words, header_words, new_server_words, Draws, LaysUndrawn, Lays};

use config::SimConfig;
use rng::Rng;
use seeds::Stream;
use state::{Capacity, sizes};

// Zeros all bytes of the area.
fn clear(area: &mut [u8], f: Capacity)
    requires { Inside area.old f }
    ensures { Clears area.old area.new (bytes_of f) }
{
    let n = config::area_length(f.servers, f.clients, f.limits);
    words::fill_zero(area, 0, n as usize);
}

// ---- the header

// The counts, from word 0 on.
fn store_counts(area: &mut [u8], f: Capacity)
    requires { Inside area.old f }
    ensures { Writes area.old area.new (bytes_of f) 0 (count_words f) }
{
    let limits = f.limits;
    let row = [
        f.servers,
        f.clients,
        limits.log_indexes,
        limits.payload,
        limits.message,
        limits.events,
        limits.writes,
        limits.history,
    ];
    words::store_all(area, 0, &row);
}

// The bytes at which the tables up to the replies begin, from word 8 on.
fn store_first_offsets(area: &mut [u8], f: Capacity)
    requires { Inside area.old f }
    ensures { Writes area.old area.new (bytes_of f) 8 (first_offsets f) }
{
    let block = sizes::block_words(f);
    let queue = sizes::queue_at(f);
    let seen = sizes::seen_at(f);
    let leaders = sizes::leaders_at(f);
    let replies = sizes::replies_at(f);
    let row = [
        4096,
        8 * block as u64,
        8 * queue as u64,
        8 * seen as u64,
        8 * leaders as u64,
        8 * replies as u64,
    ];
    words::store_all(area, 8, &row);
}

// Those of the other tables, the bytes of all parts, and the area's length, from word 14 on.
fn store_last_offsets(area: &mut [u8], f: Capacity)
    requires { Inside area.old f }
    ensures { Writes area.old area.new (bytes_of f) 14 (last_offsets f) }
{
    let confirmations = sizes::confirmations_at(f);
    let applied = sizes::applied_at(f);
    let clients = sizes::clients_at(f);
    let whole = sizes::whole_words(f);
    let row = [
        8 * confirmations as u64,
        8 * applied as u64,
        8 * clients as u64,
        8 * whole as u64,
        config::area_length(f.servers, f.clients, f.limits),
    ];
    words::store_all(area, 14, &row);
}

// The settings, from word 19 on.
fn store_settings(area: &mut [u8], f: Capacity, config: SimConfig)
    requires { Inside area.old f }
    ensures { Writes area.old area.new (bytes_of f) 19 (settings_words config) }
{
    let consensus = config.consensus;
    let row = [
        consensus.heartbeat_interval.0,
        consensus.election_timeout_min.0,
        consensus.election_timeout_max.0,
        consensus.max_entries_per_message,
        consensus.max_entries_in_flight,
        config.one_way_delay.0,
        config.command_bytes,
        config.client_timeout.0,
        config.client_backoff.0,
        config.count_bytes,
        config.raft_checks,
        config.start_spread.0,
    ];
    words::store_all(area, 19, &row);
}

// The run and the network, from word 31 on.
fn store_first(area: &mut [u8], f: Capacity, seed: u64)
    requires { Inside area.old f }
    ensures { Writes area.old area.new (bytes_of f) 31 (first_words seed) }
{
    let workload = seeds::stream_rng(seed, Stream::Workload);
    let network = seeds::stream_rng(seed, Stream::Network);
    let row = [seed, 0, workload.state, 0, 0, 0, 0, 0, 1, 0, network.state];
    words::store_all(area, 31, &row);
}

// The header up to the metrics.
fn store_header(area: &mut [u8], f: Capacity, config: SimConfig, seed: u64)
    requires { Inside area.old f }
    ensures { Writes area.old area.new (bytes_of f) 0 (header_words f config seed) }
{
    store_counts(area, f);
    store_first_offsets(area, f);
    store_last_offsets(area, f);
    store_settings(area, f, config);
    store_first(area, f, seed);
}

// ---- servers and clients

// The servers: of each only the next index to apply is not zero.
fn store_servers(area: &mut [u8], f: Capacity)
    requires { Inside area.old f }
    ensures { Writes area.old area.new (bytes_of f) 512 (new_server_words f f.servers) }
{
    let n = f.servers as usize;
    for slot in 0..n {
        let at = sizes::block_at(f, slot);
        words::store(area, at + 18, 1);
    }
}

// The clients, each with a target drawn for it; the generator after the draws.
fn draw_targets(area: &mut [u8], f: Capacity, g: Rng) -> Rng
    requires { Inside area.old f }
    ensures { Draws area.old area.new f g result }
{
    let at = sizes::clients_at(f);
    let n = f.clients as usize;
    let mut next = g;
    for c in 0..n {
        let d = next.drawn_under(f.servers);
        words::store(area, at + c * 8, d.value);
        next = d.next;
    }
    next
}

// The new state, with the generator of clients' choices as it is before the draws; the generator after them.
fn lay_tables(area: &mut [u8], f: Capacity, config: SimConfig, seed: u64) -> Rng
    requires { Inside area.old f }
    ensures { LaysUndrawn area.old area.new f config seed result }
{
    clear(area, f);
    store_header(area, f, config, seed);
    store_servers(area, f);
    draw_targets(area, f, seeds::stream_rng(seed, Stream::Workload))
}

// The whole content of the new state.
pub fn lay_out(area: &mut [u8], f: Capacity, config: SimConfig, seed: u64)
    requires { Inside area.old f }
    ensures { Lays area.old area.new f config seed }
{
    let next = lay_tables(area, f, config, seed);
    state_header::set_workload(area, f, next);
}
