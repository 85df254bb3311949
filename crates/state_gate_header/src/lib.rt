// Whether the parts of an area's header are contents: counts and offsets, settings, network, metrics, the open input, violations.
#![tactic(auto)]

ghost use Rattle.std.specs.Prelude.{◌≡◌, ◌≤◌, length};
ghost use Rattle.words.specs.Words.{W};
ghost use Rattle.state.specs.Parts.{capacity_in};
ghost use Rattle.state.specs.Sizes.{Within};
ghost use Rattle.state.specs.Changes.{Inside};
ghost use Rattle.state_gate_header.specs.Regions.{region_ok, regions_ok};
ghost use Rattle.state_gate_header.specs.Header.{offsets_ok, accepted_ok, input_ok, verdict_ok, owed_ok, open_ok};

use checks::violations;
use config::{Limits, SimConfig};
use state::{Capacity, OpenInput, header, sizes};
use units::Duration;

// ---- counts and offsets

// Whether the first five offsets are those of the counts.
fn first_offsets(area: &[u8], f: Capacity) -> bool
    requires within { Within f }
    requires in_bounds { 152 ≤ length area.now }
    ensures { result ≡ offsets_ok f (W area.now) 8 5 }
{
    let block = sizes::block_words(f) as u64;
    let queue = sizes::queue_at(f) as u64;
    let seen = sizes::seen_at(f) as u64;
    let leaders = sizes::leaders_at(f) as u64;
    (words::load(area, 8) == 4096)
        & (words::load(area, 9) == 8 * block)
        & (words::load(area, 10) == 8 * queue)
        & (words::load(area, 11) == 8 * seen)
        & (words::load(area, 12) == 8 * leaders)
}

// Whether the last six offsets are.
fn last_offsets(area: &[u8], f: Capacity) -> bool
    requires within { Within f }
    requires in_bounds { 152 ≤ length area.now }
    ensures { result ≡ offsets_ok f (W area.now) 13 6 }
{
    let replies = sizes::replies_at(f) as u64;
    let confirmations = sizes::confirmations_at(f) as u64;
    let applied = sizes::applied_at(f) as u64;
    let clients = sizes::clients_at(f) as u64;
    let whole = sizes::whole_words(f) as u64;
    let bytes = config::area_length(f.servers, f.clients, f.limits);
    (words::load(area, 13) == 8 * replies)
        & (words::load(area, 14) == 8 * confirmations)
        & (words::load(area, 15) == 8 * applied)
        & (words::load(area, 16) == 8 * clients)
        & (words::load(area, 17) == 8 * whole)
        & (words::load(area, 18) == bytes)
}

// Whether the header's first 19 words are counts and their offsets.
fn capacity(area: &[u8], f: Capacity) -> bool
    requires inside { Inside area.now f }
    requires f_value { f ≡ capacity_in (W area.now) }
    ensures { result ≡ region_ok f area.now 0 }
{
    let first = first_offsets(area, f);
    let last = last_offsets(area, f);
    first & last
}

// ---- settings, network, metrics

// Whether questions 1 to 3 accept the settings.
fn accepted(c: SimConfig, limits: Limits) -> bool
    ensures { result ≡ accepted_ok c limits }
{
    config::judge(c, limits).is_ok()
}

// Whether the settings are accepted.
fn settings(area: &[u8], f: Capacity) -> bool
    requires { Inside area.now f }
    ensures { result ≡ region_ok f area.now 1 }
{
    let c = header::load_settings(&area[152..248], f);
    accepted(c, f.limits)
}

// Whether the network is in range, with the delay of the settings.
fn network(area: &[u8], f: Capacity) -> bool
    requires { Inside area.now f }
    ensures { result ≡ region_ok f area.now 3 }
{
    let delay = words::load(&area[152..248], 5);
    network_words::check(&area[296..336], f.servers, Duration(delay))
}

// Whether the metrics are those of so many servers.
fn metrics(area: &[u8], f: Capacity) -> bool
    requires { Inside area.now f }
    ensures { result ≡ region_ok f area.now 4 }
{
    metrics_words::check(&area[336..584], f.servers)
}

// ---- the phase with its open input

// Whether the numbers of an input are in range.
fn input(kind: u64, client: u64, seq: u64, attempt: u64, clients: u64) -> bool
    ensures { result ≡ input_ok clients kind client seq attempt }
{
    if kind == 4 {
        return client < clients;
    }
    (kind <= 5) & (client == 0) & (seq == 0) & (attempt == 0)
}

// Whether the numbers of a verdict are, for an input of this kind.
fn verdict(input: u64, kind: u64, leader: u64) -> bool
    ensures { result ≡ verdict_ok input kind leader }
{
    if kind == 0 {
        return leader == 0;
    }
    if kind == 1 {
        return (leader == 0) & (3 <= input);
    }
    (kind == 2) & (3 <= input)
}

// Whether the numbers of what is owed are.
fn owed(kind: u64, next: u64, servers: u64) -> bool
    ensures { result ≡ owed_ok servers kind next }
{
    if kind == 0 {
        return next == 0;
    }
    (kind <= 2) & (next <= servers)
}

// Whether ten numbers are those of a phase.
fn open(o: OpenInput, servers: u64, clients: u64) -> bool
    ensures { result ≡ open_ok servers clients o }
{
    if o.phase == 0 {
        return (o.slot == 0)
            & (o.input == 0)
            & (o.client == 0)
            & (o.seq == 0)
            & (o.attempt == 0)
            & (o.verdict == 0)
            & (o.leader == 0)
            & (o.owed == 0)
            & (o.next == 0);
    }
    let input = input(o.input, o.client, o.seq, o.attempt, clients);
    let owed = owed(o.owed, o.next, servers);
    if o.phase == 1 {
        return (o.slot < servers) & input & (o.verdict == 0) & (o.leader == 0) & owed;
    }
    let verdict = verdict(o.input, o.verdict, o.leader);
    (o.phase == 2) & (o.slot < servers) & input & verdict & owed
}

// Whether the phase is in range.
fn phase(area: &[u8], f: Capacity) -> bool
    requires { Inside area.now f }
    ensures { result ≡ region_ok f area.now 5 }
{
    let o = header::load_open(&area[584..664]);
    open(o, f.servers, f.clients)
}

// ---- unused words, violations

// Whether the header's unused words are zero.
fn unused(area: &[u8], f: Capacity) -> bool
    requires { Inside area.now f }
    ensures { result ≡ region_ok f area.now 7 }
{
    words::all_zero(&area[728..2048])
}

// Whether the violations are a table of as many as the header counts.
fn violations(area: &[u8], f: Capacity) -> bool
    requires { Inside area.now f }
    ensures { result ≡ region_ok f area.now 8 }
{
    let n = words::load(&area[664..728], 6) as usize;
    violations::check(&area[2048..4096], n)
}

// ---- all of the header

// Whether the header's nine regions are contents; the numbers of the run and the counts of rows may be any.
pub fn header(area: &[u8], f: Capacity) -> bool
    requires inside { Inside area.now f }
    requires f_value { f ≡ capacity_in (W area.now) }
    ensures { result ≡ regions_ok f area.now 0 9 }
{
    let capacity = capacity(area, f);
    let settings = settings(area, f);
    let network = network(area, f);
    let metrics = metrics(area, f);
    let phase = phase(area, f);
    let unused = unused(area, f);
    let violations = violations(area, f);
    capacity & settings & network & metrics & phase & unused & violations
}
