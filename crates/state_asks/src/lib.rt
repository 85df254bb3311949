// The questions of checks.rs over the state that an area holds. Nothing is written: a call asks, and then acts.
#![tactic(auto)]

mod numbers; // how many rows a table has, and where the regions begin
pub mod apply; // a payload applied
pub mod status; // a status
pub mod writes; // writes
pub mod matching; // every pair of logs
pub mod durability; // every acknowledged command on every server
