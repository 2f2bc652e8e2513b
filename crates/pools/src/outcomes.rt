//! What comes of a call, as a line of text.
use crate::cases::{Call, Case};
use derivatives::derive;
use nodes::{Node, Pool, enter, first_unsound};
use refusals::Refusal;
use std::alloc::{AllocError, Global};

pub fn of_call(heap: Global, case: &Case) -> anyhow::Result<String> {
    let mut after = Vec::from_slice(heap, case.nodes.as_slice())?;
    let mut pool = Pool {
        items: after.as_mut_slice(),
        count: case.count,
    };
    let answer = match case.call {
        Call::FirstUnsound => return Ok(of_soundness(heap, case.nodes.as_slice())?),
        Call::Enter(form) => enter(&mut pool, form),
        Call::Derive(node, answers) => derive(&mut pool, node, answers),
    };
    let count = pool.count;
    let mut line = answered(heap, answer, count)?;
    add_changes(&mut line, case.nodes.as_slice(), after.as_slice())?;
    Ok(line)
}

fn of_soundness(heap: Global, nodes: &[Node]) -> Result<String, AllocError> {
    match first_unsound(nodes) {
        Some(number) => format!(in heap; "unsound {number}"),
        None => String::from_str(heap, "sound"),
    }
}

fn answered(
    heap: Global,
    answer: Result<u16, Refusal>,
    count: usize,
) -> Result<String, AllocError> {
    match answer {
        Ok(number) => format!(in heap; "OK {number} {count}"),
        Err(Refusal { question, place }) => {
            format!(in heap; "REFUSED {question} {place} {count}")
        }
    }
}

/// Adds each place that does not hold what it held before.
fn add_changes(line: &mut String, before: &[Node], after: &[Node]) -> anyhow::Result<()> {
    for (place, (old, new)) in before.iter().zip(after.iter()).enumerate() {
        if old != new {
            write!(line, " ({place} {new})")?;
        }
    }
    Ok(())
}
