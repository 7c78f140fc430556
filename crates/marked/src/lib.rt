// The marked examples of docs/RULES.md, section 10, shown of the definitions: see specs/ and proofs/.
#![tactic(auto)]
