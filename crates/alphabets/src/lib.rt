//! Alphabets: what a letter is, what every alphabet tells and keeps, and what follows for each of them.
#![tactic(auto)]

mod alphabet;
mod kind;
mod letter;
mod theorems;

pub use alphabet::Alphabet;
pub use kind::{Kind, UnknownKind};
pub use letter::Letter;
pub use theorems::{class_lists_have_letters, laws_hold, letters_of_one_class_are_alike};
