// Counts the packets of a capture by board and refusal.
#![tactic(auto)]

pub mod counting;
pub mod judging;
pub mod window;
