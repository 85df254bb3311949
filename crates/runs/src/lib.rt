// The definitions computed on recorded runs of the reference. No code.
#![tactic(auto)]
