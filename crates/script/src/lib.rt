// Scripts: what a line asks for, and the text of what is answered.
#![tactic(auto)]

pub mod answers;
pub mod claims;
pub mod lines;
pub mod pending;
pub mod request;
pub mod standing;
