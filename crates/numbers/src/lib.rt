// Laws of whole numbers that belong to no subject (proofs/), each stated once for all crates that use it. It
// has no code.
#![tactic(auto)]
