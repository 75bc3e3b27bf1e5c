// A table: its lines entered into a plan, and the report on it.
#![tactic(auto)]

pub mod answer;
pub mod table;
