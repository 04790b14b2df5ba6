// The resolved text of an accepted source passes every stage again: see specs/ and proofs/. No code runs here.
#![tactic(auto)]
