// Settings and limits of a simulation (config.rs, SimConfig of simulation.rs): document 01's questions 1, 2 and 3, and the area's length.
#![tactic(auto)]

ghost use Rattle.std.specs.Prelude.{◌≡◌, ◌+◌, ◌*◌, ◌≤◌, ◌^◌};
ghost use Rattle.units.specs.declared.refusal.Refusal.TheVariants.{Consensus};
ghost use Rattle.config.specs.Config.{validate};
ghost use Rattle.config.specs.Limits.{within, servers_fit, duration_fits, durations_fit, limits_fit, settings_fit, counts_fit, judge, area_length, InLimits};

use units::Duration;
use units::refusal::Refusal;

// Settings shared by both algorithms.
#[derive(Clone, Copy)]
pub struct Config {
    // How often a leader sends heartbeats.
    pub heartbeat_interval: Duration,
    // Shortest election timeout.
    pub election_timeout_min: Duration,
    // Longest election timeout.
    pub election_timeout_max: Duration,
    // Most entries a leader sends in one message.
    pub max_entries_per_message: u64,
    // Most entries a leader sends to one follower before that follower acknowledges them.
    pub max_entries_in_flight: u64,
}

// Why settings can not be used together: the first problem found.
#[derive(Clone, Copy)]
pub enum ConfigError {
    // election_timeout_min must be positive
    ElectionTimeoutMinZero,
    // election_timeout_min must not exceed election_timeout_max
    ElectionTimeoutMinAboveMax,
    // heartbeat_interval must be positive and shorter than election_timeout_min
    HeartbeatIntervalOutOfRange,
    // max_entries_per_message must be positive
    MaxEntriesPerMessageZero,
    // max_entries_in_flight must be at least max_entries_per_message
    MaxEntriesInFlightTooFew,
}

// Each is a no to question 2.
impl From<ConfigError> for Refusal {
    ghost from_gives = { λ _ refusal. refusal ≡ Consensus };

    fn from(_error: ConfigError) -> Refusal {
        Refusal::Consensus
    }
}

impl Config {
    // Checks that the settings can be used together.
    #[tactic(auto, unfolding(crate::specs::Config::validate, crate::specs::Questions::first_no), using(crate::specs::Laws::tests))]
    pub fn validate(self) -> Result<(), ConfigError>
        ensures { result ≡ validate self }
    {
        let heartbeat_interval = self.heartbeat_interval.0;
        let election_timeout_min = self.election_timeout_min.0;
        let election_timeout_max = self.election_timeout_max.0;
        if election_timeout_min == 0 {
            return Err(ConfigError::ElectionTimeoutMinZero);
        }
        if election_timeout_max < election_timeout_min {
            return Err(ConfigError::ElectionTimeoutMinAboveMax);
        }
        if heartbeat_interval == 0 || election_timeout_min <= heartbeat_interval {
            return Err(ConfigError::HeartbeatIntervalOutOfRange);
        }
        if self.max_entries_per_message == 0 {
            return Err(ConfigError::MaxEntriesPerMessageZero);
        }
        if self.max_entries_in_flight < self.max_entries_per_message {
            return Err(ConfigError::MaxEntriesInFlightTooFew);
        }
        Ok(())
    }
}

// Settings for one simulation.
#[derive(Clone, Copy)]
pub struct SimConfig {
    // Number of servers. Their ids are 1 to this number.
    pub servers: u64,
    // Settings given to every server.
    pub consensus: Config,
    // Mean one-way message delay.
    pub one_way_delay: Duration,
    // Number of closed-loop clients.
    pub clients: u64,
    // Size of each client command in bytes.
    pub command_bytes: u64,
    // How long a client waits for a reply before retrying at a random server.
    pub client_timeout: Duration,
    // How long a client waits before retrying when a server does not know the leader.
    pub client_backoff: Duration,
    // Whether to count the bytes of every message: 0 or 1.
    pub count_bytes: u64,
    // Whether to check leader completeness whenever a server becomes leader: 0 or 1.
    pub raft_checks: u64,
    // Servers first start at times drawn uniformly from this span; with zero all start at time zero.
    pub start_spread: Duration,
}

// The capacities of a simulation, by document 01's letters.
#[derive(Clone, Copy)]
pub struct Limits {
    // L: log indexes
    pub log_indexes: u64,
    // P: bytes of a payload
    pub payload: u64,
    // M: bytes of a message
    pub message: u64,
    // Q: queued events
    pub events: u64,
    // W: unsynced writes of a server
    pub writes: u64,
    // H: history: a server's pending keys; the entries seen, leaders, replies and confirmations
    pub history: u64,
}

// Is a number from `low` to `high`?
#[tactic(auto, unfolding(crate::specs::Limits::within))]
fn within(low: u64, high: u64, n: u64) -> bool
    ensures { result ≡ within low high n }
{
    (low..=high).contains(&n)
}

// Question 1: are there 1 to 8 servers?
#[tactic(auto, unfolding(crate::specs::Limits::servers_fit))]
fn servers_fit(servers: u64) -> bool
    ensures { result ≡ servers_fit servers }
{
    within(1, 8, servers)
}

// Is a duration at most 2^40 ns?
#[tactic(auto, unfolding(crate::specs::Limits::duration_fits))]
fn duration_fits(duration: Duration) -> bool
    ensures { result ≡ duration_fits duration }
{
    duration.0 <= 1099511627776
}

// Are all durations of the settings within their limit?
#[tactic(auto, unfolding(crate::specs::Limits::durations_fit), using(crate::specs::Laws::conjunction))]
fn durations_fit(config: SimConfig) -> bool
    ensures { result ≡ durations_fit config }
{
    let consensus = config.consensus;
    duration_fits(consensus.heartbeat_interval)
        & duration_fits(consensus.election_timeout_min)
        & duration_fits(consensus.election_timeout_max)
        & duration_fits(config.one_way_delay)
        & duration_fits(config.client_timeout)
        & duration_fits(config.client_backoff)
        & duration_fits(config.start_spread)
}

// Are the capacities within their limits?
#[tactic(auto, unfolding(crate::specs::Limits::limits_fit), using(crate::specs::Laws::conjunction))]
fn limits_fit(limits: Limits) -> bool
    ensures { result ≡ limits_fit limits }
{
    within(1, 1024, limits.log_indexes)
        & within(12, 256, limits.payload)
        & within(0, 4096, limits.message)
        & within(1, 65536, limits.events)
        & within(1, 65536, limits.writes)
        & within(1, 65536, limits.history)
}

// Are the counts that an area begins with within limits: servers, clients and the capacities?
#[tactic(auto, unfolding(crate::specs::Limits::counts_fit), using(crate::specs::Laws::conjunction))]
pub fn counts_fit(servers: u64, clients: u64, limits: Limits) -> bool
    ensures { result ≡ counts_fit servers clients limits }
{
    servers_fit(servers) & within(0, 64, clients) & limits_fit(limits)
}

// Question 3: are the other settings within limits?
#[tactic(auto, unfolding(crate::specs::Limits::settings_fit), using(crate::specs::Laws::conjunction))]
fn settings_fit(config: SimConfig, limits: Limits) -> bool
    ensures { result ≡ settings_fit config limits }
{
    within(0, 64, config.clients)
        & limits_fit(limits)
        & within(0, limits.payload, config.command_bytes)
        & durations_fit(config)
        & within(0, 1, config.count_bytes)
        & within(0, 1, config.raft_checks)
}

// The first of questions 1, 2 and 3 that is answered no.
#[tactic(auto, unfolding(crate::specs::Limits::judge, crate::specs::Questions::first_no), using(crate::specs::Laws::accepted, crate::specs::Laws::refused))]
pub fn judge(config: SimConfig, limits: Limits) -> Result<(), Refusal>
    ensures { result ≡ judge config limits }
{
    if !servers_fit(config.servers) {
        return Err(Refusal::Servers);
    }
    config.consensus.validate()?;
    if !settings_fit(config, limits) {
        return Err(Refusal::Settings);
    }
    Ok(())
}

// The length of the area in bytes.
pub fn area_length(servers: u64, clients: u64, limits: Limits) -> u64
    requires { InLimits servers clients limits }
    ensures { (result ≡ area_length servers clients limits) × (result ≤ 480931840) }
{
    let l = limits.log_indexes;
    let p = limits.payload;
    let h = limits.history;
    let server = 512 + 2 * l * (p + 24) + limits.writes * (p + 32) + 16 * h;
    4096 + servers * server
        + limits.events * (limits.message + 64)
        + h * (2 * p + 160)
        + l * (p + 16)
        + 64 * clients
}
