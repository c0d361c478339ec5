// A committee by counting that carries out a script.
#![tactic(auto)]

mod opening;
pub mod player;
pub mod rehearsal;
