// The events of a recording, up to its end or its first bad event: a definition in specs/. No code.
#![tactic(auto)]
