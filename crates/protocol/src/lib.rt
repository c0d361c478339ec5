// Rows, refusals, moves and calls. What each call does stands in specs/.
#![tactic(auto)]

pub mod call;
pub mod claims;
pub mod moves;
pub mod refusal;
pub mod row;
