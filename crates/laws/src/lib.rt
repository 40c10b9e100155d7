// No code: definitions and laws that several crates cite stand in specs/ and proofs/.
#![tactic(auto)]
