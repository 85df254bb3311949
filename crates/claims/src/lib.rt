// Claims about lists of calls, proved of the definitions: one induction, on states and on an area's bytes.
#![tactic(auto)]
