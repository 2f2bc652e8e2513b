//! Numbers as atoms have them.
ghost use Rattle.std.specs.Prelude.{◌≡◌, ◌<◌, ◌≤◌, IfSome, length};
ghost use Rattle.cutting.specs.Hexadecimal.{digit_of, hexadecimal_of, read_on};

/// The most digits of a number in an atom.
const MOST_DIGITS: usize = 4;

/// The number that one to four lower-case hexadecimal digits spell.
pub fn hexadecimal(digits: &[u8]) -> Option<u16>
    ensures { result ≡ hexadecimal_of digits.now }
{
    match digits.len() {
        1..=MOST_DIGITS => number(digits),
        _ => None,
    }
}

/// The number that digits spell.
#[tactic(auto, using(crate::proofs::Numbers::digit_read, crate::proofs::Numbers::no_digit), unfolding(crate::specs::Hexadecimal::read_on))]
fn number(digits: &[u8]) -> Option<u16>
    requires { length digits.now ≤ 4 }
    ensures { result ≡ read_on 0 digits.now }
{
    let mut number = 0;
    for &byte in digits {
        number = number * 16 + digit(byte)?;
    }
    Some(number)
}

/// The number of a digit.
fn digit(byte: u8) -> Option<u16>
    ensures value { result ≡ digit_of byte }
    ensures below { IfSome result (λ v. v < 16) }
{
    match byte {
        b'0'..=b'9' => Some(u16::from(byte - b'0')),
        b'a'..=b'f' => Some(u16::from(byte - b'a') + 10),
        _ => None,
    }
}
