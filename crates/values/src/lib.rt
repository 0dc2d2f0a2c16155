// The values of document 01 that are proved, as theorems about the definitions: proofs/Values.antt.
#![tactic(auto)]
