//! Deriving: the node of what may follow a letter.
#![tactic(auto)]

mod answer;
mod parts;
mod walk;

pub use walk::derive;
