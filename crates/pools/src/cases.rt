//! Cases: a call, and the pool that it is made on.
use anyhow::Context;
use nodes::{Form, Node, NodeKind};
use std::alloc::Global;

#[derive(Clone, Copy)]
pub enum Call {
    FirstUnsound,
    Enter(Form),
    Derive(u16, u32),
}

#[derive(Drop)]
pub struct Case {
    pub call: Call,
    pub count: usize,
    pub nodes: Vec<Node>,
}

impl Case {
    /// A line has the call and the records, with one blank between them.
    pub fn read(heap: Global, line: &str) -> anyhow::Result<Case> {
        let (first, records) = line.split_once(' ').unwrap_or((line, ""));
        let (call, count) = called(first)?;
        let mut nodes = Vec::new(heap);
        for word in records.split(' ') {
            add_records(&mut nodes, word)?;
        }
        Ok(Case { call, count, nodes })
    }
}

fn called(word: &str) -> anyhow::Result<(Call, usize)> {
    let Some((name, value)) = word.split_once('=') else {
        return Ok((Call::FirstUnsound, 0));
    };
    let [count, second, third, fourth] = numbers(value)?;
    let call = match name {
        "derive" => Call::Derive(field(second), u32::try_from(third).unwrap_or(u32::MAX)),
        _ => Call::Enter(form_of(kind_of(second)?, field(third), field(fourth))),
    };
    Ok((call, count))
}

/// Adds the records that a word stands for.
fn add_records(nodes: &mut Vec<Node>, word: &str) -> anyhow::Result<()> {
    match word {
        "" => Ok(()),
        "first" => {
            for first in ["0,0,0,0", "1,0,0,1", "2,0,0,0", "8,0,0,1"] {
                nodes.push(record(first)?)?;
            }
            Ok(())
        }
        _ => {
            let (one, times) = word.split_once('*').unwrap_or((word, "1"));
            let node = record(one)?;
            for _ in 0..times.parse::<usize>()? {
                nodes.push(node)?;
            }
            Ok(())
        }
    }
}

fn record(word: &str) -> anyhow::Result<Node> {
    let [kind, left, right, flag] = numbers(word)?;
    Ok(Node {
        kind: kind_of(kind)?,
        left: field(left),
        right: field(right),
        nullable: flag == 1,
    })
}

/// Up to four numbers with commas between them; one that is not there is 0.
fn numbers(word: &str) -> anyhow::Result<[usize; 4]> {
    let mut numbers = [0; 4];
    for (number, part) in numbers.iter_mut().zip(word.split(',')) {
        *number = part.parse::<usize>()?;
    }
    Ok(numbers)
}

fn field(number: usize) -> u16 {
    u16::try_from(number).unwrap_or(u16::MAX)
}

fn kind_of(number: usize) -> anyhow::Result<NodeKind> {
    u8::try_from(number)
        .ok()
        .and_then(|number| NodeKind::try_from(number).ok())
        .context("no such kind")
}

fn form_of(kind: NodeKind, left: u16, right: u16) -> Form {
    match kind {
        NodeKind::None => Form::None,
        NodeKind::Empty => Form::Empty,
        NodeKind::Any => Form::Any,
        NodeKind::Atom => Form::Atom(left),
        NodeKind::Sequence => Form::Sequence(left, right),
        NodeKind::Or => Form::Or(left, right),
        NodeKind::And => Form::And(left, right),
        NodeKind::Star => Form::Star(left),
        NodeKind::Not => Form::Not(left),
    }
}
