// How values lie in 64-bit words: codes, spots and tables (specs/), and the moves of a table that are the same for every row type.
#![tactic(auto)]

pub mod rows; // a table of n rows of w words: places, moves, order
pub mod marked; // a number and bytes in words: payloads, messages
pub mod keys; // pending client commands: a sorted table to copy
pub mod applied; // applied payloads: a table to copy whose rows are as wide as the limits say
