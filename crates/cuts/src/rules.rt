//! What is cut: a text, and where its atoms are written.
use anyhow::Context;
use nodes::Node;
use reader::{Entry, MOST_ATOMS, read};
use std::alloc::Global;

/// Nodes enough for a rule of as many brackets as there can be atoms.
const NODES: usize = 128;

#[derive(Drop)]
pub struct Rule {
    pub text: Vec<u8>,
    pub entries: Vec<Entry>,
    pub count: usize,
    /// Whether it is to be cut, or the alphabet left as it was made.
    pub is_cut: bool,
}

impl Rule {
    /// A text in quotes, with the count and the entries that a case names, or with those that reading it as a rule gives.
    pub fn of_case(heap: Global, atoms: &str, quoted: &str) -> anyhow::Result<Rule> {
        let text = text_of(heap, quoted.trim_matches('"'))?;
        if atoms == "read" {
            return Rule::read(heap, text);
        }
        let (count, entries) = atoms.split_once(':').unwrap_or(("0", ""));
        Ok(Rule {
            text,
            entries: entries_of(heap, entries)?,
            count: count.parse::<usize>()?,
            is_cut: atoms != "new",
        })
    }

    pub fn read(heap: Global, text: Vec<u8>) -> anyhow::Result<Rule> {
        let mut pool = vec![in heap; Node::default(); NODES]?;
        let mut entries = vec![in heap; Entry::default(); MOST_ATOMS]?;
        let reading = read(text.as_slice(), pool.as_mut_slice(), entries.as_mut_slice())?;
        Ok(Rule {
            text,
            entries,
            count: reading.atoms,
            is_cut: true,
        })
    }
}

/// The bytes of a text in which `\xhh` stands for a byte.
fn text_of(heap: Global, word: &str) -> anyhow::Result<Vec<u8>> {
    let (plain, escapes) = word.split_once("\\x").unwrap_or((word, ""));
    let mut text = Vec::from_slice(heap, plain.as_bytes())?;
    for escape in escapes.split("\\x") {
        let escape = escape.as_bytes();
        let (digits, plain) = escape.split_at(escape.len().min(2));
        text.extend_from_slice(hex::decode(heap, digits)?.as_slice())?;
        text.extend_from_slice(plain)?;
    }
    Ok(text)
}

/// Entries, each a place and a length, with semicolons between them.
fn entries_of(heap: Global, words: &str) -> anyhow::Result<Vec<Entry>> {
    let mut entries = Vec::new(heap);
    for word in words.split(';').filter(|word| !word.is_empty()) {
        let (place, length) = word.split_once(',').context("no length")?;
        entries.push(Entry {
            place: place.parse::<usize>()?,
            length: length.parse::<usize>()?,
        })?;
    }
    Ok(entries)
}
