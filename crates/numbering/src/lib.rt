//! Numbering things in the order in which they are first met.
#![tactic(auto)]

mod book;
mod same;

pub use book::{Book, find};
pub use same::Same;
