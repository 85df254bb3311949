// The simulator's definitions (simulation.rs): the state, and what every call makes of it. No code: what the calls must equal.
#![tactic(auto)]
