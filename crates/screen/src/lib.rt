// Which items are hidden or grey (document 02, W-202). See specs/ and proofs/. No code runs here.
#![tactic(auto)]
