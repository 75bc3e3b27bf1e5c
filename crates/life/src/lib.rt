// The whole life of a plan: calls worked one after another, from an empty plan on.
#![tactic(auto)]

pub mod life;
pub mod replay;
