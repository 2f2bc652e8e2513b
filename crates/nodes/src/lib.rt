//! Nodes: rules as records in a pool of the caller's.
#![tactic(auto)]

mod entering;
mod form;
mod merging;
mod node;
mod pool;
mod recording;
mod sound;

pub use entering::enter;
pub use form::Form;
pub use node::{ALL, ANY, EMPTY, FIRST_NODES, NONE, Node, NodeKind, UnknownKind};
pub use pool::{MOST_NODES, Pool, form_at, nullable_at};
pub use sound::first_unsound;
