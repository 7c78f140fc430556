// Transcripts: calls since power-on, and what reads give on the way, written out by the rules and computed. There is no code here: see
// specs/ and proofs/.
#![tactic(auto)]
