// What the right answer is, from a derivation's rows to the whole answer and the resolved text: see specs/ and proofs/. No code runs here.
#![tactic(auto)]
