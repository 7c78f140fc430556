// The terminal is told of every key: what turned contacts, a repeat and a handover queue, read back, gives the held keys. See specs/
// and proofs/.
#![tactic(auto)]
