// Request P8, a part of the memory that follows from another part: definitions in specs/, its laws in proofs/. No code.
#![tactic(auto)]
