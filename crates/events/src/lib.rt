//! The alphabet of bench events.
#![tactic(auto)]

mod alphabet;
mod classing;
mod making;

pub use alphabet::EventAlphabet;
pub use making::cut;
