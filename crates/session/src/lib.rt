// A session of the bench (docs/RULES.md, section 12) is a list of calls: what holds of calls holds of its lines. There is no code here: see
// specs/ and proofs/.
#![tactic(auto)]
