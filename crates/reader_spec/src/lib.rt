// The reader from text and marker table to a tape, as a definition: specs/. What holds of it: specs/Promise.antt, specs/Conditions.antt, and the laws in proofs/.
#![tactic(auto)]
