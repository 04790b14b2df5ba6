// Refusals 5 and 16 list their faults in source order, so that the first is the earliest: see specs/ and proofs/. No code runs here.
#![tactic(auto)]
