//! Reading a rule text: its atoms, and its rule as nodes in a pool of the caller's.
#![tactic(auto)]

mod asking;
mod source;
mod worked;
mod writing;

pub use languages::rules::MOST_ATOMS;
pub use source::{Reading, read};
pub use surveys::Entry;
pub use worked::worked_texts;
