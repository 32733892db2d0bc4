// The main theorems with their full types, each by citation of what the other crates prove: proofs/Theorems.antt. The conditions of document 01's numbers 1 to 10 stand in specs/Conditions.antt.
#![tactic(auto)]
