// The declared plan of a bus: its messages, the calls that change them, and the traffic that they mean.
#![tactic(auto)]

mod cycle;
pub mod open;
pub mod record;
mod schedule;
pub mod streams;
