//! The kinds of alphabets, and the numbers that stand for them.
ghost use Rattle.std.specs.Prelude.{◌≡◌, Some};
ghost use Rattle.alphabets.specs.Kinds.{kind_number, NamesKind, unknown_kind};

use std::error::Error;
use std::fmt;

/// The kind of an alphabet.
#[derive(Clone, Copy, PartialEq, Eq, Debug)]
pub enum Kind {
    Bytes = 1,
    /// Bench events.
    Events = 2,
}

impl Kind {
    /// The number that stands for the kind in a step file.
    pub fn number(self) -> u8
        ensures { result ≡ kind_number self }
    {
        self as u8
    }
}

/// A number that no kind has.
#[derive(Clone, Copy, PartialEq, Eq, Debug)]
pub struct UnknownKind(pub u8);

impl TryFrom<u8> for Kind {
    type Error = UnknownKind;

    ghost try_from_gives = { NamesKind };

    fn try_from(number: u8) -> Result<Self, UnknownKind> {
        match number {
            1 => Ok(Kind::Bytes),
            2 => Ok(Kind::Events),
            _ => Err(UnknownKind(number)),
        }
    }
}

impl fmt::Display for UnknownKind {
    ghost output = { λ e. Some (unknown_kind e) };

    fn fmt<W: fmt::Write>(&self, f: &mut fmt::Formatter<W>) -> fmt::Result {
        write!(f, "no kind of alphabet has the number {}", self.0)
    }
}

impl Error for UnknownKind {}
