//! Rule texts, read.

use crate::excerpts::excerpt;
use crate::failures::Failure;
use nodes::{MOST_NODES, Node};
use reader::{Entry, MOST_ATOMS, Reading};
use refusals::{Question, Refusal};
use std::alloc::{AllocError, Global};

/// What a rule text was read into. Nodes and atoms are in use as far as the reading says.
#[derive(Drop)]
pub struct Rule {
    pub reading: Reading,
    pub nodes: Vec<Node>,
    pub atoms: [Entry; MOST_ATOMS],
}

pub fn read(heap: Global, text: &[u8]) -> Result<Rule, Failure> {
    let mut nodes = vec![in heap; Node::default(); MOST_NODES]?;
    let mut atoms = [Entry::default(); MOST_ATOMS];
    let reading = placed(
        heap,
        text,
        reader::read(text, nodes.as_mut_slice(), &mut atoms),
    )?;
    Ok(Rule {
        reading,
        nodes,
        atoms,
    })
}

/// What a call came to that was given a text; where it was refused, with the place shown where it stands in the text.
pub fn placed<T>(heap: Global, text: &[u8], outcome: Result<T, Refusal>) -> Result<T, Failure> {
    match outcome {
        Ok(value) => Ok(value),
        Err(refusal) => Err(misread(heap, text, refusal)?),
    }
}

fn misread(heap: Global, text: &[u8], refusal: Refusal) -> Result<Failure, AllocError> {
    match refusal.question {
        Question::TokenStart
        | Question::BracketClosed
        | Question::GrammarAllows
        | Question::LevelsOpen
        | Question::AtomCount
        | Question::AtomForm
        | Question::AtomOrder => {
            Ok(Failure::Misread(refusal, excerpt(heap, text, refusal.place)?))
        }
        _ => Ok(Failure::Refused(refusal)),
    }
}
