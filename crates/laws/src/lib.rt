// Definitions and laws on tests and lists that every crate's specs may cite; no code.
#![tactic(auto)]
