// Every call of the simulator: the gate, and what stands behind it. Whatever the arguments and the lent bytes are, a call ends, and answers and
// leaves what its definition gives. Crate api_c exports them for C.
#![tactic(auto)]

pub mod settings; // settings and limits as C gives them
pub mod run; // start, step, seal and end
pub mod direct; // direct calls
pub mod writes; // writes of the open input
pub mod outputs; // outputs of the open input
pub mod requested; // checks on request
pub mod reads; // reads
pub mod schedules; // schedules, seeds and sizes: no area is lent
