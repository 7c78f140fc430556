// Docks that are wrong by the rules, and a run of each that breaks demand 3. So the statement shuts them out: none of them could be proved
// to meet it. There is no code here: see specs/ and proofs/.
#![tactic(auto)]
