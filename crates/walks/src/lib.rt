// No code: what proofs by hand share, those of functions that take a struct, or a slice of structs, by reference, stands in proofs/.
#![tactic(auto)]
