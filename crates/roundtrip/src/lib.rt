// The resolved text reads as its source does: see proofs/. No code runs here.
#![tactic(auto)]
