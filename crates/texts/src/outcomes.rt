//! What comes of a reading, as a line of text.
use crate::cases::Case;
use nodes::{Node, NodeKind};
use reader::{Entry, Reading, read};
use refusals::Refusal;
use std::alloc::{AllocError, Global};

/// What every node and every entry holds before a reading, so that one left as it was can be told.
const STALE_NODE: Node = Node {
    kind: NodeKind::Not,
    left: 1,
    right: 0,
    nullable: false,
};

const STALE_ENTRY: Entry = Entry {
    place: 61166,
    length: 61166,
};

/// The answer, then the nodes and the entries up to the last that is not as it was.
pub fn of_reading(heap: Global, case: &Case) -> anyhow::Result<String> {
    let mut pool = vec![in heap; STALE_NODE; case.nodes]?;
    let mut atoms = vec![in heap; STALE_ENTRY; case.places]?;
    let answer = read(
        case.text.as_slice(),
        pool.as_mut_slice(),
        atoms.as_mut_slice(),
    );
    let mut line = answered(heap, answer)?;
    for node in changed(pool.as_slice(), &STALE_NODE) {
        write!(line, " ({node})")?;
    }
    for entry in changed(atoms.as_slice(), &STALE_ENTRY) {
        write!(line, " [{} {}]", entry.place, entry.length)?;
    }
    Ok(line)
}

fn answered(heap: Global, answer: Result<Reading, Refusal>) -> Result<String, AllocError> {
    match answer {
        Ok(Reading { root, nodes, atoms }) => format!(in heap; "OK {root} {nodes} {atoms}"),
        Err(Refusal { question, place }) => format!(in heap; "REFUSED {question} {place}"),
    }
}

/// The items up to the last that is not as it was.
fn changed<'a, T: PartialEq>(items: &'a [T], stale: &T) -> &'a [T] {
    match items.iter().rposition(|item| *item != *stale) {
        Some(last) => &items[..=last],
        None => &[],
    }
}
