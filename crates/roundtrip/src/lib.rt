// What holds of encoder and reader together (docs/PROMISES.md, demand 2): theorems only, see specs/ and proofs/.
#![tactic(auto)]
