// Document 01's trial items 1 to 12, about the definitions: specs/Items.antt, settled in proofs/Settled.antt.
#![tactic(auto)]
