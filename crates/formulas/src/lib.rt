// Expressions by their values: their text, its tree, and how deep its groups nest. See specs/ and proofs/. No code runs here.
#![tactic(auto)]
