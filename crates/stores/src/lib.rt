// The three stores of what a channel sends, as code meets them: periodics, written records, the record in flight. Definitions in specs/, laws in proofs/. No code.
#![tactic(auto)]
