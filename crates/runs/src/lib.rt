// Runs of calls: a dock, an onlooker who says which of its scans count, and a terminal that reads its key bytes. See specs/ and proofs/.
#![tactic(auto)]
