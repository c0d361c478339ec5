// Theorems about the protocol.
#![tactic(auto)]

pub mod claims;
