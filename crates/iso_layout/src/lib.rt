// The region of an ISO 15765 channel: how the channel of `iso` lies in bytes. Definitions and laws. No code.
#![tactic(auto)]
