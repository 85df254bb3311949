// The settings and limits of a run as C gives them, in numbers of 64 bits; durations in nanoseconds.
ghost use Rattle.std.specs.Prelude.{◌≡◌};
ghost use Rattle.api.specs.Given.{settings_given, limits_given};

use config::{Config, Limits, SimConfig};
use units::Duration;

// The settings of a simulation.
#[repr(C)]
#[derive(Clone, Copy)]
pub struct SettingsNumbers {
    pub servers: u64,
    pub heartbeat_interval: u64,
    pub election_timeout_min: u64,
    pub election_timeout_max: u64,
    pub max_entries_per_message: u64,
    pub max_entries_in_flight: u64,
    pub one_way_delay: u64,
    pub clients: u64,
    pub command_bytes: u64,
    pub client_timeout: u64,
    pub client_backoff: u64,
    // 0 or 1.
    pub count_bytes: u64,
    // 0 or 1.
    pub raft_checks: u64,
    pub start_spread: u64,
}

// The capacities, by document 01's letters L, P, M, Q, W and H.
#[repr(C)]
#[derive(Clone, Copy)]
pub struct LimitsNumbers {
    pub log_indexes: u64,
    pub payload: u64,
    pub message: u64,
    pub events: u64,
    pub writes: u64,
    pub history: u64,
}

// The settings of their numbers.
pub fn settings_given(n: SettingsNumbers) -> SimConfig
    ensures { result ≡ settings_given n }
{
    let consensus = Config {
        heartbeat_interval: Duration(n.heartbeat_interval),
        election_timeout_min: Duration(n.election_timeout_min),
        election_timeout_max: Duration(n.election_timeout_max),
        max_entries_per_message: n.max_entries_per_message,
        max_entries_in_flight: n.max_entries_in_flight,
    };
    SimConfig {
        servers: n.servers,
        consensus,
        one_way_delay: Duration(n.one_way_delay),
        clients: n.clients,
        command_bytes: n.command_bytes,
        client_timeout: Duration(n.client_timeout),
        client_backoff: Duration(n.client_backoff),
        count_bytes: n.count_bytes,
        raft_checks: n.raft_checks,
        start_spread: Duration(n.start_spread),
    }
}

// The limits of their numbers.
pub fn limits_given(n: LimitsNumbers) -> Limits
    ensures { result ≡ limits_given n }
{
    Limits {
        log_indexes: n.log_indexes,
        payload: n.payload,
        message: n.message,
        events: n.events,
        writes: n.writes,
        history: n.history,
    }
}
