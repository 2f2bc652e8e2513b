//! Layers on layers: a pile of two, over any alphabet, keeps the laws and asks about what both layers make of a letter.
#![tactic(auto)]

mod crossed;
mod folded;

pub use crossed::two_station_layers;
pub use folded::two_folds;
