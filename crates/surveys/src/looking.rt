//! Looking at the tokens of a text.
ghost use Rattle.std.specs.Prelude.{◌≡◌, ◌≤◌, ◌&&◌, length, ◌==◌};
ghost use Rattle.grammar.specs.Atoms.{counted, within};
ghost use Rattle.grammar.specs.Lexing.{lexed_at, lexed_from};
ghost use Rattle.grammar.specs.Sighting.{sighted, token_of};
ghost use Rattle.grammar.specs.Tokens.{begins_some, sign_of};
ghost use Rattle.surveys.specs.Looking.{LiesAt, after, told};

use crate::reader::Reader;
use grammar::{Lexeme, Token, next};
use refusals::{Question, Refusal};

/// The first token of a text from `at` on.
pub(crate) fn look<'t>(text: &'t [u8], at: usize) -> Result<Lexeme<'t>, Refusal>
    ensures seen { sighted result ≡ lexed_at text.now at }
    ensures lies { LiesAt text.now at result }
{
    next(text, at)
}

/// The first token of the reader's text from `at` on; a bracket that would be one atom too many is refused.
#[tactic(auto, using(crate::proofs::Advancing::told_after))]
pub fn advance<'t>(reader: &Reader<'t>, at: usize) -> Result<Lexeme<'t>, Refusal>
    ensures whole { sighted result ≡ counted reader.now.horizon (lexed_at reader.now.text.now at) }
    ensures told { told reader.now result ≡ after reader.now at }
    ensures lies { LiesAt reader.now.text.now at result }
{
    look_within(reader, at)
}

/// The steps of `advance`; that one says what they come to.
#[tactic(auto, using(crate::proofs::Advancing::counted_bad, crate::proofs::Advancing::counted_refused, crate::proofs::Advancing::counted_token))]
fn look_within<'t>(reader: &Reader<'t>, at: usize) -> Result<Lexeme<'t>, Refusal>
    ensures whole { sighted result ≡ counted reader.now.horizon (lexed_at reader.now.text.now at) }
    ensures lies { LiesAt reader.now.text.now at result }
{
    let lexeme = look(reader.text, at)?;
    if is_beyond(reader, lexeme) {
        return Err(Question::AtomCount.at(lexeme.place));
    }
    Ok(lexeme)
}

/// Whether a lexeme is the bracket that would be one atom too many.
fn is_beyond(reader: &Reader, lexeme: Lexeme) -> bool
    ensures { result ≡ (sign_of (token_of lexeme.entry.token) == 91 && lexeme.entry.place == reader.now.horizon) }
{
    matches!(lexeme.token, Token::Bracket(_)) && lexeme.place == reader.horizon
}

/// Whether a token can begin an operand.
pub fn begins(token: Token) -> bool
    ensures { result ≡ begins_some (token_of token.entry) }
{
    matches!(
        token,
        Token::Bang | Token::Opening | Token::Nought | Token::One | Token::Dot | Token::Bracket(_)
    )
}
