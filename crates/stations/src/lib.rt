//! The station layer, for benches whose hoses are crossed.
#![tactic(auto)]

mod entries;
mod layer;
mod order;
mod theorems;

pub use layer::Stations;
pub use order::StationOrder;
pub use theorems::{classes_are_those_below, samples_ask_about_those_below};
