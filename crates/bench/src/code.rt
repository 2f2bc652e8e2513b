//! What a bench can report.
ghost use Rattle.std.specs.Prelude.{◌≡◌, Some};
ghost use Rattle.bench.specs.Events.{code_number, NamesCode, unknown_code};

use std::error::Error;
use std::fmt;

/// What a bench did.
#[derive(Clone, Copy, PartialEq, Eq, Debug, Default)]
pub enum Code {
    #[default]
    C0 = 0,
    C1 = 1,
    C2 = 2,
    C3 = 3,
    C4 = 4,
    C5 = 5,
    C6 = 6,
    C7 = 7,
    C8 = 8,
    C9 = 9,
    C10 = 10,
    C11 = 11,
    C12 = 12,
    C13 = 13,
    C14 = 14,
    C15 = 15,
}

impl Code {
    /// All codes, by number.
    pub const ALL: [Code; 16] = [
        Code::C0,
        Code::C1,
        Code::C2,
        Code::C3,
        Code::C4,
        Code::C5,
        Code::C6,
        Code::C7,
        Code::C8,
        Code::C9,
        Code::C10,
        Code::C11,
        Code::C12,
        Code::C13,
        Code::C14,
        Code::C15,
    ];

    /// The number of the code.
    pub fn number(self) -> u8
        ensures { result ≡ code_number self }
    {
        self as u8
    }
}

impl TryFrom<u8> for Code {
    type Error = UnknownCode;

    ghost try_from_gives = { NamesCode };

    fn try_from(number: u8) -> Result<Self, UnknownCode> {
        match number {
            0 => Ok(Code::C0),
            1 => Ok(Code::C1),
            2 => Ok(Code::C2),
            3 => Ok(Code::C3),
            4 => Ok(Code::C4),
            5 => Ok(Code::C5),
            6 => Ok(Code::C6),
            7 => Ok(Code::C7),
            8 => Ok(Code::C8),
            9 => Ok(Code::C9),
            10 => Ok(Code::C10),
            11 => Ok(Code::C11),
            12 => Ok(Code::C12),
            13 => Ok(Code::C13),
            14 => Ok(Code::C14),
            15 => Ok(Code::C15),
            _ => Err(UnknownCode(number)),
        }
    }
}

/// A number that no code has.
#[derive(Clone, Copy, PartialEq, Eq, Debug)]
pub struct UnknownCode(pub u8);

impl fmt::Display for UnknownCode {
    ghost output = { λ e. Some (unknown_code e) };

    fn fmt<W: fmt::Write>(&self, f: &mut fmt::Formatter<W>) -> fmt::Result {
        write!(f, "no code has the number {}", self.0)
    }
}

impl Error for UnknownCode {}
