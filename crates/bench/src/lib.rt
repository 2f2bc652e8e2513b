//! What a bench reports: events, with their codes and stations.
#![tactic(auto)]

mod code;
mod event;
mod station;

pub use code::{Code, UnknownCode};
pub use event::Event;
pub use station::{Station, UnknownStation};
