// A terminal that reads key bytes and keeps which keys are down: see specs/ and proofs/.
#![tactic(auto)]
