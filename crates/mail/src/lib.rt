// Messages, the places of a post, and what makes a certificate, a valid report, a safe proposal.
#![tactic(auto)]

pub mod certificate;
pub mod claims;
pub mod faults;
pub mod held;
pub mod kind;
pub mod leader;
pub mod message;
pub mod place;
pub mod posting;
pub mod proposal;
pub mod report;
