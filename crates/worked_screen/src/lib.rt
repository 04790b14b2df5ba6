// The readings of document 02, W-202, computed from bytes to answer and bytes: see proofs/. No code runs here.
#![tactic(auto)]
