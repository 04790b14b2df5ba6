// The rules of a form set, from its derivation to the values that are found for them (document 02, W-202). See specs/ and proofs/. No code runs here.
#![tactic(auto)]
