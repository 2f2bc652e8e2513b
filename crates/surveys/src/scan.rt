//! Finding the atoms of a text before it is read.
ghost use Rattle.std.specs.Prelude.{◌≡◌};
ghost use Rattle.grammar.specs.Sighting.{token_of};
ghost use Rattle.surveys.specs.Entries.{Meeting, listed, taking};
ghost use Rattle.surveys.specs.Looking.{Stands};
ghost use Rattle.surveys.specs.Padding.{IsPadded};
ghost use Rattle.surveys.specs.Surveying.{Surveyed};

use crate::atoms::Atoms;
use crate::lexemes::Lexemes;
use crate::reader::Reader;
use grammar::{Lexeme, Token};

/// The atoms of a text up to the one that is too many, or else up to the end or to where no token can be told.
pub fn survey<'t>(text: &'t [u8]) -> Reader<'t>
    ensures { Surveyed text.now result }
{
    let mut atoms = Atoms::new();
    for lexeme in Lexemes::of(text) {
        if !take(&mut atoms, text, lexeme) {
            return reader(text, atoms, lexeme.place);
        }
    }
    reader(text, atoms, text.len())
}

/// Meets a token, which is an atom only if it is a bracket. Says no where that would be one too many, and at the end of
/// the text too.
fn take(atoms: &mut Atoms, text: &[u8], lexeme: Lexeme) -> bool
    requires { Stands text.now lexeme }
    ensures taken { ◌≡◌ {A = Meeting} (result, listed atoms.new) (taking text.now (listed atoms.old) lexeme.entry.place (token_of lexeme.entry.token)) }
    ensures padded { IsPadded atoms.old.count atoms.old.entries → IsPadded atoms.new.count atoms.new.entries }
{
    match lexeme.token {
        Token::Bracket(inside) => atoms.meet(text, lexeme.place, inside),
        Token::End => false,
        _ => true,
    }
}

/// What a text is read with.
fn reader<'t>(text: &'t [u8], atoms: Atoms, horizon: usize) -> Reader<'t>
    ensures text { result.text.now ≡ text.now }
    ensures atoms { result.atoms ≡ atoms }
    ensures horizon { result.horizon ≡ horizon }
{
    Reader {
        text,
        atoms,
        horizon,
    }
}
