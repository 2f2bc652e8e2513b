//! Rule texts: their tokens, and the grammar that says which rule a text writes. The reader that follows it is elsewhere.
#![tactic(auto)]

mod lexer;
mod theorem;
mod token;

pub use lexer::next;
pub use theorem::{first_wrong_token_is_told, grammar_gives_one_tree};
pub use token::{Lexeme, Token};
