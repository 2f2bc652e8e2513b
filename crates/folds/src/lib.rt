//! The fold layer: an alphabet of bytes that makes no difference between `A` and `a`.
#![tactic(auto)]

mod bytes;
mod fold;
mod theorems;

pub use bytes::folded;
pub use fold::Fold;
pub use theorems::{fold_classes_are_first_met, folding_again_changes_nothing, folds_ask_below};
