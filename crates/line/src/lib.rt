// One line of a table: its tokens, and the record that it declares.
#![tactic(auto)]

pub mod line;
mod names;
pub mod number;
mod reader;
mod tokens;
