//! Passes over a text, in the order of the text: one that checks it, and one that enters its rule.
#![tactic(auto)]

mod binary;
mod cycle;
mod entering;
mod part;
mod sink;
mod stars;
mod walk;
mod whole;

pub use binary::Binary;
pub use whole::{check, enter_rule};
