//! Marks, and the bytes that stand for them.
ghost use Rattle.std.specs.Prelude.{◌≡◌, Some};
ghost use Rattle.languages.specs.Marks.{number, NamesMark, unknown_mark};

use std::error::Error;
use std::fmt;

/// What a row of a table says about the lists that lead to it. In its number bit 0 says that the row accepts, bit 1 that
/// it reaches a row that accepts, and bit 2 that it reaches one that does not.
#[derive(Clone, Copy, PartialEq, Eq, Debug)]
pub enum Mark {
    /// Accepted, and so is every list beginning with it.
    Settled = 3,
    /// Accepted, but some list beginning with it is not.
    Holds = 7,
    /// Not accepted, but some list beginning with it is.
    Open = 6,
    /// Neither it nor any list beginning with it is accepted.
    Lost = 4,
}

impl Mark {
    /// The number that stands for the mark in a file.
    pub fn number(self) -> u8
        ensures { result ≡ number self }
    {
        self as u8
    }
}

/// A number that no mark has.
#[derive(Clone, Copy, PartialEq, Eq, Debug)]
pub struct UnknownMark(pub u8);

impl TryFrom<u8> for Mark {
    type Error = UnknownMark;

    ghost try_from_gives = { NamesMark };

    fn try_from(number: u8) -> Result<Self, UnknownMark> {
        match number {
            3 => Ok(Mark::Settled),
            7 => Ok(Mark::Holds),
            6 => Ok(Mark::Open),
            4 => Ok(Mark::Lost),
            _ => Err(UnknownMark(number)),
        }
    }
}

impl fmt::Display for UnknownMark {
    ghost output = { λ e. Some (unknown_mark e) };

    fn fmt<W: fmt::Write>(&self, f: &mut fmt::Formatter<W>) -> fmt::Result {
        write!(f, "no mark has the number {}", self.0)
    }
}

impl Error for UnknownMark {}
