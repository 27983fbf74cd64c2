// Saved set-ups: what a store reads as and what is shown of save and load, in specs/ and proofs/. No code.
#![tactic(auto)]
