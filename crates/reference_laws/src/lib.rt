// Laws for proofs by hand of functions that hold references to structs. They stand in proofs/.
#![tactic(auto)]
