// Demand 3 on the definitions: one theorem about every list of calls. No code.
#![tactic(auto)]
