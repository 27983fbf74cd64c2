// Laws for proofs that walk through compiled code by hand: a slice that is lent again for a call, an early return. No code.
#![tactic(auto)]
