// Lines of a letter and numbers: each number in shortest decimal, one space before it.
#![tactic(auto)]

pub mod field;
pub mod lines;
