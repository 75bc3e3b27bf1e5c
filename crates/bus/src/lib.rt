// What every part of the engine shares: frame lengths, refusals, and what a traffic is.
#![tactic(auto)]

pub mod frame;
pub mod refusal;
pub mod traffic;
