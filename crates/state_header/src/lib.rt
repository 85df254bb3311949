// The parts of fixed size of the state that an area holds, read and written in place: settings, the numbers of the run, the network, the
// metrics, the open input, the counts of rows.
#![tactic(auto)]

ghost use Rattle.std.specs.Prelude.{◌≡◌};
ghost use Rattle.state.specs.Parts.{open_of};
ghost use Rattle.state.specs.Area.{run_of, counts_of};
ghost use Rattle.state.specs.Changes.{Inside, Changes, Reads};
ghost use Rattle.state_header.specs.Header.{settings_of, delay_of, network_of, metrics_of, phase_of, now_set, workload_set, max_log_gaps_set, direct_seq_set, events_set, network_set, metrics_set, SetsPhase};

use config::SimConfig;
use metrics::Metrics;
use network::Network;
use rng::Rng;
use state::{Capacity, OpenInput, Run, TableCounts, header};
use units::{Duration, SimTime};

// ---- settings

// The settings.
pub fn settings_of(area: &[u8], f: Capacity) -> SimConfig
    requires { Inside area.now f }
    ensures { Reads area.now f result settings_of }
{
    header::load_settings(&area[152..248], f)
}

// The mean one-way delay of a message.
pub fn delay_of(area: &[u8], f: Capacity) -> Duration
    requires { Inside area.now f }
    ensures { Reads area.now f result delay_of }
{
    Duration(words::load(&area[152..248], 5))
}

// ---- the run

// The numbers of the run.
pub fn run_of(area: &[u8], f: Capacity) -> Run
    requires { Inside area.now f }
    ensures { Reads area.now f result run_of }
{
    header::load_run(&area[248..296])
}

// Another time.
pub fn set_now(area: &mut [u8], f: Capacity, time: SimTime)
    requires { Inside area.old f }
    ensures { Changes area.old area.new f (now_set time) }
{
    words::store(area, 32, time.0);
}

// Another generator of clients' choices.
pub fn set_workload(area: &mut [u8], f: Capacity, g: Rng)
    requires { Inside area.old f }
    ensures { Changes area.old area.new f (workload_set g) }
{
    words::store(area, 33, g.state);
}

// Other greatest gaps of a log.
pub fn set_max_log_gaps(area: &mut [u8], f: Capacity, gaps: u64)
    requires { Inside area.old f }
    ensures { Changes area.old area.new f (max_log_gaps_set gaps) }
{
    words::store(area, 34, gaps);
}

// Another sequence number of the next direct proposal.
pub fn set_direct_seq(area: &mut [u8], f: Capacity, seq: u64)
    requires { Inside area.old f }
    ensures { Changes area.old area.new f (direct_seq_set seq) }
{
    words::store(area, 35, seq);
}

// Another count of events taken.
pub fn set_events(area: &mut [u8], f: Capacity, events: u64)
    requires { Inside area.old f }
    ensures { Changes area.old area.new f (events_set events) }
{
    words::store(area, 36, events);
}

// ---- the network and the metrics

// The network.
pub fn network_of(area: &[u8], f: Capacity) -> Network
    requires { Inside area.now f }
    ensures { Reads area.now f result network_of }
{
    let delay = delay_of(area, f);
    network_words::load(&area[296..336], delay)
}

// Another network.
pub fn set_network(area: &mut [u8], f: Capacity, n: Network)
    requires { Inside area.old f }
    ensures { Changes area.old area.new f (network_set n) }
{
    network_words::store(&mut area[296..336], n);
}

// The metrics.
pub fn metrics_of(area: &[u8], f: Capacity) -> Metrics
    requires { Inside area.now f }
    ensures { Reads area.now f result metrics_of }
{
    metrics_words::load(&area[336..584])
}

// Other metrics.
pub fn set_metrics(area: &mut [u8], f: Capacity, m: Metrics)
    requires { Inside area.old f }
    ensures { Changes area.old area.new f (metrics_set m) }
{
    metrics_words::store(&mut area[336..584], m);
}

// ---- the open input, and the counts of rows

// The phase with its open input.
pub fn open_of(area: &[u8], f: Capacity) -> OpenInput
    requires { Inside area.now f }
    ensures { Reads area.now f result (λ s. open_of (phase_of s)) }
{
    header::load_open(&area[584..664])
}

// Another phase, told by its numbers.
pub fn set_open(area: &mut [u8], f: Capacity, input: OpenInput)
    requires { Inside area.old f }
    ensures { SetsPhase area.old area.new f input }
{
    header::store_open(&mut area[584..664], input);
}

// How many rows the tables have.
pub fn counts_of(area: &[u8], f: Capacity) -> TableCounts
    requires { Inside area.now f }
    ensures { Reads area.now f result counts_of }
{
    header::load_counts(&area[664..728])
}
