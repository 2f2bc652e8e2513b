//! The fields of an atom's text.
ghost use Rattle.std.specs.Prelude.{◌≡◌, ◌≤◌, ◌+◌, length};
ghost use Rattle.bands.specs.Fields.{one_or_every, pressure_at};

use cutting::hexadecimal;

/// How many digits a pressure has.
const PRESSURE_DIGITS: usize = 4;

/// What a character stands for: a digit for the thing with this number, `.` for every one.
pub(crate) fn one_or_every<T: Copy>(all: &[T], character: u8) -> Option<Option<T>>
    ensures { result ≡ one_or_every all.now character }
{
    if character == b'.' {
        return Some(None);
    }
    let number = hexadecimal(&[character])?;
    Some(Some(*all.get(usize::from(number))?))
}

/// The pressure that stands at a place of the text, if it is one.
pub(crate) fn pressure_at(text: &[u8], place: usize) -> Option<u16>
    requires { place + 4 ≤ length text.now }
    ensures { result ≡ pressure_at text.now place }
{
    hexadecimal(&text[place..place + PRESSURE_DIGITS])
}
