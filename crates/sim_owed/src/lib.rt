// Servers started and stopped, and what is owed after an input (start_server, stop_server, restart_server of simulation.rs, and its two loops
// that start servers).
#![tactic(auto)]

ghost use Rattle.std.specs.Prelude.{◌≡◌};
ghost use Rattle.state.specs.Parts.{owed_in};
ghost use Rattle.sim_owed.specs.Servers.{owed_of, kind_of, place_of};

pub mod servers; // servers started, stopped and restarted
pub mod closes; // what goes on once an input is closed

// What is left of a loop over the servers once the open input is closed: nothing; the construction, or a HealAll, from a place on.
#[derive(Clone, Copy)]
pub enum Owed {
    Nothing,
    Construction(u64),
    Healing(u64),
}

impl Owed {
    // Its number in an open input.
    pub fn kind(self) -> u64
        ensures { result ≡ kind_of self }
    {
        match self {
            Owed::Nothing => 0,
            Owed::Construction(_) => 1,
            Owed::Healing(_) => 2,
        }
    }

    // The place from which it goes on.
    pub fn place(self) -> u64
        ensures { result ≡ place_of self }
    {
        match self {
            Owed::Nothing => 0,
            Owed::Construction(place) => place,
            Owed::Healing(place) => place,
        }
    }
}

// What is owed, of the two numbers that an open input has for it.
pub fn owed_given(kind: u64, next: u64) -> Owed
    ensures { owed_of result ≡ owed_in kind next }
{
    if kind == 0 {
        return Owed::Nothing;
    }
    if kind == 1 {
        return Owed::Construction(next);
    }
    Owed::Healing(next)
}
