// The two rules that a committee is given, the tally, and the pair of hopeful and settled view.
#![tactic(auto)]

pub mod claims;
pub mod counting;
pub mod faults;
pub mod rules;
pub mod tally;
pub mod validity;
pub mod views;
pub mod weights;
