// The TP2.0 connection as a plain machine, written from request P5 and document 001: definitions in specs/. No code.
#![tactic(auto)]
