//! The forms of two operands.
ghost use Rattle.std.specs.Prelude.{◌≡◌};
ghost use Rattle.grammar.specs.Sighting.{token_of};
ghost use Rattle.surveys.specs.Looking.{Stands, told};
ghost use Rattle.passes.specs.Passing.{LiesFrom, joining, joins_with, onset};

use grammar::{Lexeme, Token};
use nodes::Form;
use refusals::Refusal;
use surveys::{Reader, advance, begins};

/// A form of two operands, from the loosest to the tightest. Equal ones group to the left.
#[derive(Clone, Copy)]
pub enum Binary {
    Or,
    And,
    Sequence,
}

impl Binary {
    /// The form over two nodes.
    pub(crate) fn form(self, left: u16, right: u16) -> Form
        ensures { result ≡ joining self left right }
    {
        match self {
            Binary::Or => Form::Or(left, right),
            Binary::And => Form::And(left, right),
            Binary::Sequence => Form::Sequence(left, right),
        }
    }

    /// Whether a token behind one operand says that another follows.
    pub(crate) fn joins(self, token: Token) -> bool
        ensures { result ≡ joins_with self (token_of token.entry) }
    {
        match self {
            Binary::Or => matches!(token, Token::Bar),
            Binary::And => matches!(token, Token::Ampersand),
            Binary::Sequence => begins(token),
        }
    }

    /// The token that the next operand begins with; a sequence has no sign of its own.
    pub(crate) fn start<'t>(
        self,
        reader: &Reader<'t>,
        next: Lexeme<'t>,
    ) -> Result<Lexeme<'t>, Refusal>
        requires { Stands reader.now.text.now next }
        ensures told { told reader.now result ≡ onset self reader.now next.entry }
        ensures lies { LiesFrom reader.now.text.now next.entry.place result }
    {
        match self {
            Binary::Or | Binary::And => advance(reader, next.after),
            Binary::Sequence => Ok(next),
        }
    }
}
