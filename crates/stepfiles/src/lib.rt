//! Step files: their layout, their marks, and a view that only a file which passed every check can have.
#![tactic(auto)]

mod file;
mod header;
mod marks;
mod opening;
mod table;
mod targets;
mod view;

pub use alphabets::{Kind, UnknownKind};
pub use file::StepFile;
pub use languages::Mark;
pub use opening::open;
pub use table::MOST_ROWS;
