// The calls of the simulator for C: each is the one of crate api by its name, under the same clauses. host/include/bucketbeach.h declares them.
#![tactic(auto)]

pub mod run; // start, step, seal and end
pub mod direct; // direct calls
pub mod writes; // writes of the open input
pub mod outputs; // outputs of the open input
pub mod requested; // checks on request
pub mod reads; // reads
pub mod schedules; // schedules, seeds and sizes: no area is lent
