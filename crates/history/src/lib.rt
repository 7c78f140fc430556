// What counted scans say of the contacts, and that the dock's counters say the same: see specs/ and proofs/.
#![tactic(auto)]
