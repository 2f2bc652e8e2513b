//! Cutting a text into tokens, one at a time.
ghost use Rattle.std.specs.Prelude.{◌≡◌, ◌+◌, ◌<◌, ◌==◌, drop, length, not, position};
ghost use Rattle.grammar.specs.Lexing.{blank, bracket_to, closing_at, lexed_at};
ghost use Rattle.grammar.specs.Sighting.{sighted};

use crate::token::{Lexeme, Token};
use refusals::{Question, Refusal};

/// The first token of `text` from `at` on, blanks and line feeds skipped; `End` where none is left.
pub fn next<'t>(text: &'t [u8], at: usize) -> Result<Lexeme<'t>, Refusal>
    ensures { sighted result ≡ lexed_at text.now at }
{
    let Some(blanks) = skipped(rest_from(text, at)) else {
        return Ok(Lexeme {
            token: Token::End,
            place: text.len(),
            after: text.len(),
        });
    };
    let place = at + blanks;
    let token = match text[place] {
        b'|' => Token::Bar,
        b'&' => Token::Ampersand,
        b'!' => Token::Bang,
        b'*' => Token::Asterisk,
        b'(' => Token::Opening,
        b')' => Token::Closing,
        b'0' => Token::Nought,
        b'1' => Token::One,
        b'.' => Token::Dot,
        b'[' => return bracket(text, place),
        _ => return Err(Question::TokenStart.at(place)),
    };
    Ok(Lexeme {
        token,
        place,
        after: place + 1,
    })
}

/// The bracket that begins at `place`: it runs to the next `]`, whatever stands between.
fn bracket<'t>(text: &'t [u8], place: usize) -> Result<Lexeme<'t>, Refusal>
    requires { place < length text.now }
    ensures { sighted result ≡ bracket_to text.now place (closing_at text.now (place + 1)) }
{
    let inside = place + 1;
    let Some(size) = closing(&text[inside..]) else {
        return Err(Question::BracketClosed.at(place));
    };
    let close = inside + size;
    Ok(Lexeme {
        token: Token::Bracket(&text[inside..close]),
        place,
        after: close + 1,
    })
}

/// How many bytes stand before the first `]`, if there is one.
fn closing(rest: &[u8]) -> Option<usize>
    ensures { result ≡ position (λ b. b == 93) rest.now }
{
    rest.iter().position(|byte| *byte == b']')
}

/// How many bytes are skipped before the first that may not be, if there is one.
fn skipped(rest: &[u8]) -> Option<usize>
    ensures { result ≡ position (λ b. not (blank b)) rest.now }
{
    rest.iter().position(|byte| !is_blank(*byte))
}

/// The bytes of the text from `at` on; none where it has ended before.
fn rest_from<'t>(text: &'t [u8], at: usize) -> &'t [u8]
    ensures { result.now ≡ drop at text.now }
{
    text.get(at..).unwrap_or(&[])
}

fn is_blank(byte: u8) -> bool
    ensures { result ≡ blank byte }
{
    matches!(byte, b' ' | b'\n')
}
