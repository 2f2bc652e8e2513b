//! Cases: a file, perhaps a damaged one, and the scratch that it is opened in.
use crate::tables::{Shape, Table};
use anyhow::{anyhow, ensure};
use std::alloc::Global;

/// The file of the rule `[61][62]|[61][63]`.
const EXAMPLE: &[u8; 64] = b"\x00\x00\x00\x40\x01\x01\x00\x04\x04\x00\x11\
    [61][62]|[61][63]\
    \x06\x00\x01\x00\x02\x00\x01\x00\x01\
    \x04\x00\x01\x00\x01\x00\x01\x00\x01\
    \x06\x00\x01\x00\x01\x00\x03\x00\x03\
    \x07\x00\x01\x00\x01\x00\x01\x00\x01";

/// The file of the rule `0`.
const NOTHING: &[u8; 15] = b"\x00\x00\x00\x0f\x01\x01\x00\x01\x01\x00\x01\
    0\
    \x04\x00\x00";

#[derive(Drop)]
pub struct Case {
    pub bytes: Vec<u8>,
    pub room: usize,
}

impl Case {
    /// A line has words with one blank between them, each of which changes the case.
    pub fn read(heap: Global, line: &str) -> anyhow::Result<Case> {
        let mut case = Case {
            bytes: Vec::new(heap),
            room: 0,
        };
        for word in line.split(' ') {
            case.change(heap, word)?;
        }
        Ok(case)
    }

    fn change(&mut self, heap: Global, word: &str) -> anyhow::Result<()> {
        if let Some((name, value)) = word.split_once('=') {
            return self.set(heap, name, value);
        }
        match word {
            "example" => self.bytes = Vec::from_slice(heap, EXAMPLE)?,
            "nothing" => self.bytes = Vec::from_slice(heap, NOTHING)?,
            "true" => self.mend_length(),
            _ => return Err(anyhow!("unknown word")),
        }
        Ok(())
    }

    fn set(&mut self, heap: Global, name: &str, value: &str) -> anyhow::Result<()> {
        if let Ok(shape) = name.parse::<Shape>() {
            self.bytes = Table::sized(shape, value)?.file(heap)?;
            self.mend_length();
            return Ok(());
        }
        match name {
            "room" => self.room = value.parse::<usize>()?,
            "size" => self.bytes.resize(value.parse::<usize>()?, 0)?,
            _ => write_hex(self.bytes.as_mut_slice(), name.parse::<usize>()?, value)?,
        }
        Ok(())
    }

    /// Makes the length field say how many bytes there are.
    fn mend_length(&mut self) {
        let length = u32::try_from(self.bytes.len()).unwrap_or(u32::MAX);
        for (old, new) in self.bytes.iter_mut().zip(length.to_be_bytes()) {
            *old = new;
        }
    }
}

/// Writes bytes, given as pairs of hexadecimal digits, from a place on, as far as there are places. A last digit without
/// another gives none.
fn write_hex(bytes: &mut [u8], place: usize, digits: &str) -> anyhow::Result<()> {
    let digits = digits.as_bytes();
    ensure!(
        digits.iter().all(u8::is_ascii_hexdigit),
        "no hexadecimal digit"
    );
    if let Some(room) = bytes.get_mut(place..) {
        let size = room.len().min(digits.len() / 2);
        hex::decode_to_slice(&digits[..2 * size], &mut room[..size])?;
    }
    Ok(())
}
