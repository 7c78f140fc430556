// Demand 3 (docs/PROMISES.md) as a theorem: whenever nothing waits, the terminal finds down what the counted scans say is held, as long as
// nothing clears the queue and it does not overrun. See proofs/; the words are in crates/runs/specs. What is true after every call is
// built in steps: Ready (map, contacts and held keys fit the scans), Settled (and an open handover leaves more than half the queue
// waiting), Sound (and the record is in its range, and what the onlooker knows is so), Steady (and the replies have their places).
// Follows is what is true of the terminal, InStep that it reads by the dock's set, too.
#![tactic(auto)]
