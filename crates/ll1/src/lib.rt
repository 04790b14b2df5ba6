// The mathematics of grammars that one token of lookahead decides: see specs/ and proofs/. No code runs here.
#![tactic(auto)]
