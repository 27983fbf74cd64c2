// The whole box as a plain machine: a clock, four raw CAN channels and four ISO 15765 channels. Definitions in specs/. No code.
#![tactic(auto)]
