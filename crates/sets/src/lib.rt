// Sets of processes. What a quorum rule means and its four laws stand in specs/, what follows from them in proofs/.
#![tactic(auto)]

pub mod process_set;
