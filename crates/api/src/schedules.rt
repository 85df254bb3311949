// What needs no area: its length, the seed of a stream, and a random schedule of faults.
ghost use Rattle.std.specs.Prelude.{◌≡◌};
ghost use Rattle.api.specs.Given.{length_of, stream_of, seed_of, chaos_given, schedule_told, ScheduleDrawn};

use crate::settings;
use crate::settings::LimitsNumbers;
use faults_chaos::ChaosConfig;
use faults_schedule::Made;
use rng::Rng;
use seeds::Stream;
use units::refusal::Refusal;
use units::{Duration, NodeId, SimTime};

// The length of an area in bytes.
#[repr(C)]
#[derive(Clone, Copy)]
pub struct LengthAnswer {
    pub refusal: u64,
    pub length: u64,
}

// The seed of a stream.
#[repr(C)]
#[derive(Clone, Copy)]
pub struct SeedAnswer {
    pub refusal: u64,
    pub seed: u64,
}

// The length of the area for so many servers and clients and these limits.
pub fn sim_area_length(servers: u64, clients: u64, limits: LimitsNumbers) -> LengthAnswer
    ensures { result ≡ length_of servers clients limits }
{
    let capacity = settings::limits_given(limits);
    if servers < 1 {
        return LengthAnswer {
            refusal: 1,
            length: 0,
        };
    }
    if 8 < servers {
        return LengthAnswer {
            refusal: 1,
            length: 0,
        };
    }
    if !config::counts_fit(servers, clients, capacity) {
        return LengthAnswer {
            refusal: 3,
            length: 0,
        };
    }
    LengthAnswer {
        refusal: 0,
        length: config::area_length(servers, clients, capacity),
    }
}

// The stream of a number below 6.
fn stream_of(n: u64, server: u64, incarnation: u32) -> Stream
    ensures { result ≡ stream_of n server incarnation }
{
    match n {
        0 => Stream::Faults,
        1 => Stream::Network,
        2 => Stream::Workload,
        3 => Stream::Scenario,
        4 => Stream::Startup,
        _ => Stream::Server {
            id: NodeId(server),
            incarnation,
        },
    }
}

// The seed of a stream in a simulation; of a stream other than 5 server and incarnation are not looked at, but the incarnation has 32 bits.
pub fn sim_stream_seed(seed: u64, stream: u64, server: u64, incarnation: u64) -> SeedAnswer
    ensures { result ≡ seed_of seed stream server incarnation }
{
    if 5 < stream {
        return SeedAnswer {
            refusal: 9,
            seed: 0,
        };
    }
    if 4294967296 <= incarnation {
        return SeedAnswer {
            refusal: 9,
            seed: 0,
        };
    }
    let of = stream_of(stream, server, incarnation as u32);
    SeedAnswer {
        refusal: 0,
        seed: seeds::stream_seed(seed, of),
    }
}

// The numbers of a random schedule's settings: times and durations in nanoseconds.
#[repr(C)]
#[derive(Clone, Copy)]
pub struct ChaosNumbers {
    pub start: u64,
    pub end: u64,
    pub mean_gap: u64,
    pub max_duration: u64,
}

// A schedule: how many entries its list has, and the generator after its draws.
#[repr(C)]
#[derive(Clone, Copy)]
pub struct ScheduleAnswer {
    pub refusal: u64,
    pub count: u64,
    pub generator: u64,
}

// The settings of their numbers.
fn chaos_given(n: ChaosNumbers) -> ChaosConfig
    ensures { result ≡ chaos_given n }
{
    ChaosConfig {
        start: SimTime(n.start),
        end: SimTime(n.end),
        mean_gap: Duration(n.mean_gap),
        max_duration: Duration(n.max_duration),
    }
}

// A schedule's answer in numbers.
fn schedule_told(r: Result<Made, Refusal>, next: Rng) -> ScheduleAnswer
    ensures { result ≡ schedule_told r next }
{
    match r {
        Err(refusal) => ScheduleAnswer {
            refusal: u64::from(refusal),
            count: 0,
            generator: 0,
        },
        Ok(made) => ScheduleAnswer {
            refusal: 0,
            count: made.count,
            generator: next.state,
        },
    }
}

// A random fault schedule for servers of one byte each, drawn with a generator of this state and written into a lent list, 32 bytes an entry.
pub fn sim_chaos_schedule(
    servers: &[u8],
    chaos: ChaosNumbers,
    generator: u64,
    list: &mut [u8],
) -> ScheduleAnswer
    ensures { ScheduleDrawn servers.now chaos generator result list.old list.new }
{
    let config = chaos_given(chaos);
    let mut rng = Rng::new(generator);
    let made = faults_schedule::chaos_schedule(servers, config, list, &mut rng);
    schedule_told(made, rng)
}
