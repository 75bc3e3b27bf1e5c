// Bounds on how long the instances of a stream can wait, for any traffic.
#![tactic(auto)]

pub mod bound;
mod group;
mod profile;
mod search;
mod stream;
mod turn;
mod window;
