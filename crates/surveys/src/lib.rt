//! What is known of a text before it is read: its atoms. And going over its tokens.
#![tactic(auto)]

mod atoms;
mod entry;
mod lexemes;
mod looking;
mod meeting;
mod reader;
mod scan;

pub use atoms::Atoms;
pub use entry::Entry;
pub use looking::{advance, begins};
pub use reader::Reader;
pub use scan::survey;
