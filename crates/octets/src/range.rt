//! The atoms of bytes.
ghost use Rattle.std.specs.Prelude.{◌≡◌};
ghost use Rattle.octets.specs.Ranges.{admitting, byte_of, ordered, range_of, read_as};

use cutting::{Atom, hexadecimal};

/// The bytes from the first to the last: an atom writes them as `61-7a`, or as `61` where they are one.
#[derive(Clone, Copy, PartialEq, Eq, Debug, Default)]
pub struct ByteRange {
    pub first: u8,
    pub last: u8,
}

impl Atom for ByteRange {
    type Letter = u8;

    ghost read_as = { read_as };

    ghost ordered = { ordered };

    ghost admitting = { admitting };

    fn read(inside: &[u8]) -> Option<ByteRange> {
        match inside {
            [_, _] => range(inside, inside),
            [_, _, b'-', _, _] => range(&inside[..2], &inside[3..]),
            _ => None,
        }
    }

    fn is_ordered(self) -> bool {
        self.first <= self.last
    }

    fn admits(self, letter: u8) -> bool {
        self.first <= letter && letter <= self.last
    }
}

/// The range between the bytes that two texts write.
fn range(first: &[u8], last: &[u8]) -> Option<ByteRange>
    ensures { result ≡ range_of (byte_of first.now) (byte_of last.now) }
{
    Some(ByteRange {
        first: byte(first)?,
        last: byte(last)?,
    })
}

/// The byte that hexadecimal digits write.
fn byte(digits: &[u8]) -> Option<u8>
    ensures { result ≡ byte_of digits.now }
{
    u8::try_from(hexadecimal(digits)?).ok()
}
