// What a server reports and asks for (protocol.rs): timers, requests, roles and status.
#![tactic(auto)]

ghost use Rattle.std.specs.Prelude.{◌≡◌};
ghost use Rattle.std.specs.Result.{result_ok};
ghost use Rattle.protocol.specs.Numbers.{timer_number, timer_of, role_number, role_of, leads};

use units::{LogIndex, NodeId, Term};

// The timers a server can set.
#[derive(Clone, Copy)]
pub enum Timer {
    Election,
    Heartbeat,
}

// A timer's number.
impl From<Timer> for u64 {
    ghost from_gives = { λ timer n. n ≡ timer_number timer };

    fn from(timer: Timer) -> u64 {
        match timer {
            Timer::Election => 0,
            Timer::Heartbeat => 1,
        }
    }
}

// The timer with a number.
impl TryFrom<u64> for Timer {
    type Error = ();

    ghost try_from_gives = { λ n timer. result_ok timer ≡ timer_of n };

    #[tactic(auto, unfolding(crate::specs::Numbers::timer_of, laws::specs::Kinds::kind_of))]
    fn try_from(n: u64) -> Result<Timer, ()> {
        match n {
            0 => Ok(Timer::Election),
            1 => Ok(Timer::Heartbeat),
            _ => Err(()),
        }
    }
}

// Identifies a request to confirm leadership. Chosen by the host.
#[derive(Clone, Copy)]
pub struct RequestId(pub u64);

// A server's role.
#[derive(Clone, Copy)]
pub enum Role {
    Follower,
    Candidate,
    Leader,
}

impl Role {
    // Whether a role is that of a leader.
    pub fn leads(self) -> bool
        ensures { result ≡ leads self }
    {
        matches!(self, Role::Leader)
    }
}

// A role's number.
impl From<Role> for u64 {
    ghost from_gives = { λ role n. n ≡ role_number role };

    fn from(role: Role) -> u64 {
        match role {
            Role::Follower => 0,
            Role::Candidate => 1,
            Role::Leader => 2,
        }
    }
}

// The role with a number.
impl TryFrom<u64> for Role {
    type Error = ();

    ghost try_from_gives = { λ n role. result_ok role ≡ role_of n };

    #[tactic(auto, unfolding(crate::specs::Numbers::role_of, laws::specs::Kinds::kind_of))]
    fn try_from(n: u64) -> Result<Role, ()> {
        match n {
            0 => Ok(Role::Follower),
            1 => Ok(Role::Candidate),
            2 => Ok(Role::Leader),
            _ => Err(()),
        }
    }
}

// A server's state as it reports it.
#[derive(Clone, Copy)]
pub struct Status {
    pub role: Role,
    pub term: Term,
    // The leader it follows, if known. A leader reports itself.
    pub leader: Option<NodeId>,
    // The highest index it knows to be committed.
    pub commit_index: LogIndex,
}
