// What expressions and rules are worth (document 02, W-202). See specs/ and proofs/. No code runs here.
#![tactic(auto)]
