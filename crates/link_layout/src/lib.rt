// The TP2.0 connection in its part of a channel's region: definitions in specs/, laws in proofs/. No code.
#![tactic(auto)]
