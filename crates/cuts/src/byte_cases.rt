//! Alphabets of bytes, cut and asked.
use crate::rules::Rule;
use crate::telling::{add_change, add_classes, answered};
use alphabets::Alphabet;
use anyhow::anyhow;
use folds::Fold;
use octets::{ByteAlphabet, cut};
use refusals::Refusal;
use std::alloc::{AllocError, Global};

/// What every place holds before a cutting, so that one left as it was can be told.
const EARLIER: &[u8] = b"[30-39]";

/// Cuts a rule, and tells what the alphabet or the layers above it then answer.
pub fn of_bytes(heap: Global, above: &str, rule: &Rule, asked: &str) -> anyhow::Result<String> {
    let mut place = ByteAlphabet::new();
    let mut answer = Ok(());
    if rule.is_cut {
        let earlier = Rule::read(heap, Vec::from_slice(heap, EARLIER)?)?;
        cut_rule(&earlier, &mut place)?;
        answer = cut_rule(rule, &mut place);
    }
    let mut line = answered(heap, answer)?;
    let bytes = bytes_of(heap, asked)?;
    match above {
        "" => add_told(&mut line, &place, &bytes)?,
        "fold" => add_told(&mut line, &Fold { below: place }, &bytes)?,
        "fold/fold" => {
            let below = Fold { below: place };
            add_told(&mut line, &Fold { below }, &bytes)?;
        }
        _ => return Err(anyhow!("no such layer")),
    }
    Ok(line)
}

fn cut_rule(rule: &Rule, place: &mut ByteAlphabet) -> Result<(), Refusal> {
    cut(
        rule.text.as_slice(),
        rule.entries.as_slice(),
        rule.count,
        place,
    )
}

fn add_told<A: Alphabet<Letter = u8>>(
    line: &mut String,
    alphabet: &A,
    bytes: &[u8],
) -> Result<(), AllocError> {
    add_classes(line, alphabet)?;
    let mut before = None;
    for byte in bytes {
        add_change(line, alphabet, *byte, &mut before)?;
    }
    Ok(())
}

/// All bytes, or those in hexadecimal with commas between them.
fn bytes_of(heap: Global, asked: &str) -> anyhow::Result<Vec<u8>> {
    let mut bytes = Vec::new(heap);
    if asked == "all" {
        for byte in 0..=u8::MAX {
            bytes.push(byte)?;
        }
        return Ok(bytes);
    }
    for word in asked.split(',') {
        bytes.push(u8::from_str_radix(word, 16)?)?;
    }
    Ok(bytes)
}
