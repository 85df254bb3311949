// The walks of functions over a lent struct or a lent slice of structs, which the borrow checker does not cover: proofs/ alone, and no code.
#![tactic(auto)]
