//! Letters in classes, as they are first met.
#![tactic(auto)]

mod found;
mod theorems;

pub use found::{Classes, MOST_CLASSES};
pub use theorems::{letters_have_classes, samples_are_met_first};
