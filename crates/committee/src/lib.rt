// A committee, and the calls on it.
#![tactic(auto)]

pub mod books;
mod carry_out;
pub mod committee;
mod decision;
mod deliver;
mod expire;
mod giving;
mod lent;
mod make_move;
mod opening;
mod posting;
mod sweep;
