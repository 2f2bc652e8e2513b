//! The atoms of bench events: a band of pressures, at a code and a station.
#![tactic(auto)]

mod atom;
mod fields;

pub use atom::EventAtom;
