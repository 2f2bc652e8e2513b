//! What cutting has in common for all alphabets: their atoms are read by the entries of a rule, and tell the answer sets of
//! their letters.
#![tactic(auto)]

mod atom;
mod digits;
mod entries;
mod tests;

pub use atom::Atom;
pub use digits::hexadecimal;
pub use tests::Tests;
