//! Entering what is read.
ghost use Rattle.std.specs.Prelude.{◌≡◌, Some};
ghost use Rattle.grammar.specs.Sighting.{token_of};
ghost use Rattle.grammar.specs.Grammar.{bases};
ghost use Rattle.passes.specs.Going.{GoesFrom};
ghost use Rattle.passes.specs.Passing.{leaf_in, names_of};

use crate::part::Part;
use crate::sink::Sink;
use crate::walk::Walk;
use grammar::Token;
use nodes::Form;
use refusals::Refusal;
use surveys::{Reader, advance};

/// The form that a token alone is, if it is one.
pub(crate) fn leaf(reader: &Reader, token: Token) -> Option<Form>
    ensures { result ≡ leaf_in (names_of reader.now) (token_of token.entry) }
{
    match token {
        Token::Nought => Some(Form::None),
        Token::One => Some(Form::Empty),
        Token::Dot => Some(Form::Any),
        Token::Bracket(inside) => Some(Form::Atom(atom(reader, inside))),
        _ => None,
    }
}

/// The number of the atom that is written as `inside`; how many there are where it is none of them.
fn atom(reader: &Reader, inside: &[u8]) -> u16
    ensures { result ≡ names_of reader.now inside.now }
{
    reader.atoms.number(reader.text, inside) as u16
}

impl<'r, 't> Walk<'r, 't> {
    /// A form that the token alone is.
    pub(crate) fn single<S: Sink>(self, sink: &mut S, form: Form) -> Result<Part<'t>, Refusal>
        requires { leaf_in (names_of self.reader.now) (token_of self.first.token) ≡ Some form }
        ensures goes { GoesFrom S.step self.entry bases (S.pool sink.old) result (S.pool sink.new) }
        ensures lent { S.memory sink.new ≡ S.memory sink.old }
    {
        let next = advance(self.reader, self.first.after)?;
        let node = sink.put(form)?;
        Ok(Part { node, next })
    }
}
