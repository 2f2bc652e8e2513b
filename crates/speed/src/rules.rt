//! Reading a rule, and going through its rows: row 0 is the root, each row is derived by the empty answer set and by that
//! of each atom alone, and a node that is no row yet is the next row.
use crate::{Task, each, tell_refusal, timed};
use derivatives::derive;
use nodes::{MOST_NODES, Node, Pool};
use numbering::Book;
use reader::{Entry, MOST_ATOMS, Reading, read};
use refusals::Refusal;
use std::time::Duration;
use std::{fs, io};
use stepfiles::MOST_ROWS;

/// The memory that a rule is read into.
#[derive(Drop)]
struct Memory {
    nodes: [Node; MOST_NODES],
    atoms: [Entry; MOST_ATOMS],
}

/// What going through the rows came to.
#[derive(Clone, Copy)]
struct Journey {
    derivatives: u64,
    rows: usize,
    nodes: usize,
    /// The refusal that ended it before all rows were gone through, if one did.
    outcome: Result<(), Refusal>,
}

pub fn run(rt: &HostRuntime, task: &Task) -> anyhow::Result<()> {
    let bytes = fs::read(rt, task.file.as_str())?;
    let text = bytes.as_slice();
    let mut memory = Memory {
        nodes: [Node::default(); MOST_NODES],
        atoms: [Entry::default(); MOST_ATOMS],
    };
    match memory.read(text) {
        Ok(reading) => {
            tell(rt, reading, memory.walk(reading))?;
            time(rt, text, &mut memory, task)?;
        }
        Err(refusal) => tell_refusal(rt, refusal)?,
    }
    Ok(())
}

/// Says what reading gave, and what going through the rows came to.
fn tell(rt: &HostRuntime, reading: Reading, journey: Journey) -> io::Result<()> {
    let Reading { root, nodes, atoms } = reading;
    println!(rt; "read root {root} nodes {nodes} atoms {atoms}")?;
    let Journey {
        derivatives,
        rows,
        nodes,
        outcome,
    } = journey;
    let end = if outcome.is_ok() { "" } else { " full" };
    println!(rt; "{derivatives} derivatives rows {rows} nodes {nodes}{end}")
}

/// Says how long a reading and a derivative take in the best round of each.
fn time(rt: &HostRuntime, text: &[u8], memory: &mut Memory, task: &Task) -> io::Result<()> {
    let mut reading_best = Duration::MAX;
    let mut walking_best = Duration::MAX;
    let mut derivatives = 0u64;
    for _ in 0..task.rounds {
        let (reading, took) = timed(rt, || memory.read_often(text, task.count))?;
        reading_best = reading_best.min(took);
        let Some(reading) = reading else {
            break;
        };
        let (found, took) = timed(rt, || memory.walk_often(reading, task.count))?;
        walking_best = walking_best.min(took);
        derivatives = found;
    }
    let reading = each(reading_best, u64::from(task.count));
    let derivative = each(walking_best, derivatives);
    eprintln!(rt; "{reading} ns a reading, {derivative} ns a derivative")
}

impl Memory {
    fn read(&mut self, text: &[u8]) -> Result<Reading, Refusal> {
        read(text, &mut self.nodes, &mut self.atoms)
    }

    /// Reads the text so many times, and gives the last reading.
    fn read_often(&mut self, text: &[u8], count: u32) -> Option<Reading> {
        let mut last = None;
        for _ in 0..count {
            last = self.read(text).ok();
        }
        last
    }

    /// Goes through the rows so many times, and counts the derivatives that were found in all.
    fn walk_often(&mut self, reading: Reading, count: u32) -> u64 {
        let mut derivatives = 0u64;
        for _ in 0..count {
            derivatives = derivatives.saturating_add(self.walk(reading).derivatives);
        }
        derivatives
    }

    fn walk(&mut self, reading: Reading) -> Journey {
        let mut numbers = [0u16; MOST_ROWS];
        let mut rows = Book {
            items: &mut numbers,
            count: 0,
        };
        let _ = rows.number(reading.root);
        let mut pool = Pool {
            items: &mut self.nodes,
            count: reading.nodes,
        };
        let mut derivatives = 0u64;
        let outcome = walk_rows(&mut pool, &mut rows, reading.atoms, &mut derivatives);
        Journey {
            derivatives,
            rows: rows.count,
            nodes: pool.count,
            outcome,
        }
    }
}

/// Derives the rows that there are, and those that come with it, and counts the derivatives.
fn walk_rows(
    pool: &mut Pool,
    rows: &mut Book<u16>,
    atoms: usize,
    derivatives: &mut u64,
) -> Result<(), Refusal> {
    for row in 0..MOST_ROWS {
        let Some(node) = rows.get(row) else {
            break;
        };
        for class in 0..=atoms {
            let derivative = derive(pool, node, answers(class))?;
            *derivatives = derivatives.saturating_add(1);
            let _ = rows.number(derivative);
        }
    }
    Ok(())
}

/// No bit for class 0, and then the bit of each atom alone.
fn answers(class: usize) -> u32 {
    match class.checked_sub(1) {
        Some(atom) => 1u32
            .checked_shl(u32::try_from(atom).unwrap_or(32))
            .unwrap_or(0),
        None => 0,
    }
}
