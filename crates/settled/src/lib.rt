// A settled plan: every message worked out, to be read.
#![tactic(auto)]

pub mod settled;
