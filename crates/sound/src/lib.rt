// The draft rows of a derivation are sound, and the rows of an accepted source are as document 02's W-204 has them: see specs/ and proofs/. No code
// runs here.
#![tactic(auto)]
