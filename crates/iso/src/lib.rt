// The plain ISO 15765 channel, written from request P3 and ISO 15765-2: definitions in specs/. No code.
#![tactic(auto)]
