// The shift report of a recording: definitions in specs/, laws in proofs/. No code.
#![tactic(auto)]
