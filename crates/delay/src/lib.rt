// A traffic whose nodes queue later than those of another.
#![tactic(auto)]

pub mod delayed;
