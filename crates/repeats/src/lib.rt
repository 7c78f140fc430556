// When and how keys repeat, in transcripts that are computed (see transcripts). They are long, so they stand apart from the others. There
// is no code here: see specs/ and proofs/.
#![tactic(auto)]
