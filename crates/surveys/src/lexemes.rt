//! The tokens of a text one after the other.
ghost use Rattle.std.specs.Prelude.{◌≡◌, ◌-◌, length};
ghost use Rattle.std.specs.Iterator.{at_most};
ghost use Rattle.surveys.specs.Lexemes.{Moves};

use crate::looking::look;
use grammar::{Lexeme, Token};

/// The tokens of a text from `at` on, up to its end or to where none can be told.
#[derive(Drop)]
pub(crate) struct Lexemes<'t> {
    text: &'t [u8],
    at: usize,
}

impl<'t> Lexemes<'t> {
    /// The tokens of a text from its beginning on.
    pub(crate) fn of(text: &'t [u8]) -> Lexemes<'t>
        ensures text { result.text.now ≡ text.now }
        ensures at { result.at ≡ 0 }
    {
        Lexemes { text, at: 0 }
    }
}

impl<'t> Iterator for Lexemes<'t> {
    type Item = Lexeme<'t>;

    ghost remaining = { λ s. at_most (length s.text.now - s.at) };

    ghost next_gives = { Moves };

    fn next(&mut self) -> Option<Lexeme<'t>> {
        match look(self.text, self.at) {
            Ok(lexeme) if lexeme.token != Token::End => {
                self.at = lexeme.after;
                Some(lexeme)
            }
            _ => None,
        }
    }
}
