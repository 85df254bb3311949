// What needs no area: its length, the seed of a stream, and a random schedule of faults.
ghost use Rattle.std.specs.Prelude.{◌≡◌};
ghost use Rattle.api.specs.Given.{length_of, seed_of, ScheduleDrawn};

use api::schedules;
use api::schedules::{ChaosNumbers, LengthAnswer, ScheduleAnswer, SeedAnswer};
use api::settings::LimitsNumbers;

// The length of the area for so many servers and clients and these limits.
#[unsafe(no_mangle)]
pub extern "C" fn sim_area_length(servers: u64, clients: u64, limits: LimitsNumbers) -> LengthAnswer
    ensures { result ≡ length_of servers clients limits }
{
    schedules::sim_area_length(servers, clients, limits)
}

// The seed of a stream in a simulation; of a stream other than 5 server and incarnation are not looked at, but the incarnation has 32 bits.
#[unsafe(no_mangle)]
pub extern "C" fn sim_stream_seed(
    seed: u64,
    stream: u64,
    server: u64,
    incarnation: u64,
) -> SeedAnswer
    ensures { result ≡ seed_of seed stream server incarnation }
{
    schedules::sim_stream_seed(seed, stream, server, incarnation)
}

// A random fault schedule for servers of one byte each, drawn with a generator of this state and written into a lent list, 32 bytes an entry.
#[unsafe(no_mangle)]
pub extern "C" fn sim_chaos_schedule(
    servers: &[u8],
    chaos: ChaosNumbers,
    generator: u64,
    list: &mut [u8],
) -> ScheduleAnswer
    ensures { ScheduleDrawn servers.now chaos generator result list.old list.new }
{
    schedules::sim_chaos_schedule(servers, chaos, generator, list)
}
