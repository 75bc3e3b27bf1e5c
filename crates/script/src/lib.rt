// A list of calls as text, one call a line, and the answers to it.
#![tactic(auto)]

pub mod answers;
pub mod calls;
mod words;
