//! Cases: a text, and the memory that it is read into.
use anyhow::{Context, ensure};
use std::alloc::Global;

#[derive(Drop)]
pub struct Case {
    /// The nodes of the pool.
    pub nodes: usize,
    /// The places of the atom list.
    pub places: usize,
    pub text: Vec<u8>,
}

impl Case {
    /// A line has the two sizes and the text, with one blank between them.
    pub fn read(heap: Global, line: &str) -> anyhow::Result<Case> {
        let (nodes, rest) = line.split_once(' ').context("no places")?;
        let (places, text) = rest.split_once(' ').context("no text")?;
        Ok(Case {
            nodes: nodes.parse::<usize>()?,
            places: places.parse::<usize>()?,
            text: bytes_of(heap, text)?,
        })
    }
}

/// The bytes that pairs of hexadecimal digits give; a lone dash gives none, and so does a last digit without another.
fn bytes_of(heap: Global, word: &str) -> anyhow::Result<Vec<u8>> {
    let digits = if word == "-" { "" } else { word }.as_bytes();
    ensure!(
        digits.iter().all(u8::is_ascii_hexdigit),
        "no hexadecimal digit"
    );
    Ok(hex::decode(heap, &digits[..digits.len() / 2 * 2])?)
}
