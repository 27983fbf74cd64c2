// Request P8, narrow filters as maps: definitions in specs/, and in proofs/ that the verdict by maps is the verdict. No code.
#![tactic(auto)]
