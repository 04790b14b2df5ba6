// Document 01's worked example and its specimens marked P, computed from bytes to answer, rows and text: see proofs/. No code runs here.
#![tactic(auto)]
