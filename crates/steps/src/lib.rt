// What one process does with its row: it takes a message, plans a move and makes it.
#![tactic(auto)]

mod choosing;
pub mod perform;
pub mod plan;
pub mod rows;
pub mod sending;
pub mod take;
mod taking;
