// The memory of the whole box: how its clock and its eight channels lie in bytes, and what every call promises. Definitions and laws. No code.
#![tactic(auto)]
