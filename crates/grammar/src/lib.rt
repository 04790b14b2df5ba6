// The grammar of document 01: see specs/ and proofs/. No code runs here.
#![tactic(auto)]
