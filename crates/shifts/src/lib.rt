// Whole shifts of the box: a sequence cut at its bus frames, advances and closes, each stretch in any arrangement. Definitions and laws. No code.
#![tactic(auto)]
