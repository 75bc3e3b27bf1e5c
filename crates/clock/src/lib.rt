// Periods and gaps: when the instances of a stream may come.
#![tactic(auto)]

pub mod multiple;
pub mod timing;
