//! Sweeping through all events for the classes that the answers of atoms make, from change to change.
#![tactic(auto)]

mod changes;
mod walk;

pub use walk::sweep;
