// Printed words are read back as the tokens that they spell: see specs/ and proofs/. No code runs here.
#![tactic(auto)]
