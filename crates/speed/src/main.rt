//! Times the opening of a step file, the reading and deriving of a rule, or the cutting of its atoms. Words:
//! [derive|bytes|events] FILE COUNT ROUNDS, with one of these for a rule. Standard output has what is the same in each run,
//! and standard error the time in the best round.
#![tactic(auto)]

mod cuts;
mod rules;

use anyhow::Context;
use refusals::Refusal;
use std::env::Args;
use std::time::{Duration, Instant};
use std::{env, fs, io};
use stepfiles::{MOST_ROWS, StepFile, open};

/// The place of the text's first byte, which opening does not read.
const TEXT: usize = 11;

#[derive(Drop)]
pub struct Task {
    pub file: String,
    /// How often the work is done in a round.
    pub count: u32,
    pub rounds: u32,
}

impl Task {
    /// The task that the words FILE COUNT ROUNDS set.
    fn set(mut words: Args) -> anyhow::Result<Task> {
        let file = words.next().context("no FILE")?;
        Task::on(file, words)
    }

    /// The task on a file that the words COUNT ROUNDS set.
    fn on(file: String, mut words: Args) -> anyhow::Result<Task> {
        let count = words.next().context("no COUNT")?.parse::<u32>()?;
        let rounds = words.next().context("no ROUNDS")?.parse::<u32>()?;
        Ok(Task {
            file,
            count,
            rounds,
        })
    }
}

fn main(rt: HostRuntime) -> anyhow::Result<()> {
    run(&rt)
}

fn run(rt: &HostRuntime) -> anyhow::Result<()> {
    let mut words = env::args(rt)?;
    let _ = words.next();
    let first = words.next().context("no FILE")?;
    match first.as_str() {
        "derive" => rules::run(rt, &Task::set(words)?),
        "bytes" => cuts::run_bytes(rt, &Task::set(words)?),
        "events" => cuts::run_events(rt, &Task::set(words)?),
        _ => open_file(rt, &Task::on(first, words)?),
    }
}

fn open_file(rt: &HostRuntime, task: &Task) -> anyhow::Result<()> {
    let mut bytes = fs::read(rt, task.file.as_str())?;
    let mut scratch = [0u8; MOST_ROWS];
    let (best, succeeded) = time(rt, bytes.as_mut_slice(), &mut scratch, task)?;
    tell(rt, bytes.as_slice(), &mut scratch)?;
    println!(rt; "{succeeded} openings succeeded")?;
    let nanoseconds = each(best, u64::from(task.count));
    eprintln!(rt; "{nanoseconds} ns an opening")?;
    Ok(())
}

/// The time of the best round, and how many openings of all rounds succeeded.
fn time(
    rt: &HostRuntime,
    bytes: &mut [u8],
    scratch: &mut [u8],
    task: &Task,
) -> io::Result<(Duration, u64)> {
    let mut best = Duration::MAX;
    let mut succeeded = 0u64;
    for _ in 0..task.rounds {
        let (more, took) = timed(rt, || open_often(bytes, scratch, task.count))?;
        best = best.min(took);
        succeeded = succeeded.saturating_add(more);
    }
    Ok((best, succeeded))
}

/// Opens the bytes `count` times, and counts the openings that succeed. The text changes between them, so that the
/// optimizer cannot let one opening answer for the next.
fn open_often(bytes: &mut [u8], scratch: &mut [u8], count: u32) -> u64 {
    let mut succeeded = 0u64;
    for _ in 0..count {
        if let Some(letter) = bytes.get_mut(TEXT) {
            *letter ^= 1;
        }
        let mut place = StepFile::built_in();
        if open(bytes, scratch, &mut place).is_ok() {
            succeeded = succeeded.saturating_add(1);
        }
    }
    succeeded
}

/// Says what an opening finds.
fn tell(rt: &HostRuntime, bytes: &[u8], scratch: &mut [u8]) -> io::Result<()> {
    let mut place = StepFile::built_in();
    match open(bytes, scratch, &mut place) {
        Ok(()) => {
            let length = bytes.len();
            let rows = place.row_count();
            let classes = place.class_count();
            println!(rt; "opened {length} bytes, {rows} rows, {classes} classes")
        }
        Err(refusal) => tell_refusal(rt, refusal),
    }
}

fn tell_refusal(rt: &HostRuntime, refusal: Refusal) -> io::Result<()> {
    println!(rt; "refused {refusal}")
}

/// What work gives, and the time that it takes.
pub fn timed<T: Drop, F: FnOnce() -> T>(rt: &HostRuntime, work: F) -> io::Result<(T, Duration)>
    requires { F.IsAlwaysCallable work }
{
    let start = Instant::now(rt)?;
    let given = work();
    Ok((given, start.elapsed(rt)?))
}

/// The nanoseconds that each of `count` takes.
pub fn each(all: Duration, count: u64) -> u128 {
    all.as_nanos().checked_div(u128::from(count)).unwrap_or(0)
}
