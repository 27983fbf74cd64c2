// Whole shifts in bytes: each stretch in any arrangement, on one lent memory. Definitions and laws. No code.
#![tactic(auto)]
