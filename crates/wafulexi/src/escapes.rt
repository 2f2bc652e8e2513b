//! Bytes as text that prints.
ghost use Rattle.std.specs.Prelude.{◌≡◌, ◌<◌, ◌++◌, IfOk, string_bytes, OnOk};
ghost use Rattle.std.specs.Char.{digit_char};
ghost use Rattle.wafulexi.specs.Escapes.{escape, escaped};
ghost use Rattle.wording.specs.Wording.{prints};

use std::alloc::{AllocError, Global};

/// The bytes as a line of text: one that does not print is written `\xhh`.
#[tactic(auto, using(crate::proofs::Escaping::escaped_nil, crate::proofs::Escaping::one_more))]
pub fn escaped(heap: Global, bytes: &[u8]) -> Result<String, AllocError>
    ensures { IfOk result (λ s. string_bytes s ≡ escaped bytes.now) }
{
    let mut text = String::new(heap);
    for byte in bytes {
        push_byte(&mut text, *byte)?;
    }
    Ok(text)
}

fn push_byte(text: &mut String, byte: u8) -> Result<(), AllocError>
    ensures { OnOk result (string_bytes text.new ≡ string_bytes text.old ++ escape byte) }
{
    if prints(byte) {
        text.push(char::from(byte))?;
    } else {
        text.push_str("\\x")?;
        text.push(hex_digit(byte / 16))?;
        text.push(hex_digit(byte % 16))?;
    }
    Ok(())
}

fn prints(byte: u8) -> bool
    ensures { result ≡ prints byte }
{
    (b' '..=b'~').contains(&byte)
}

/// A digit by its value. Laying out a number takes several times as long, and a text may have nothing else.
fn hex_digit(value: u8) -> char
    requires { value < 16 }
    ensures { result ≡ digit_char value }
{
    char::from_digit(u32::from(value), 16).unwrap()
}
