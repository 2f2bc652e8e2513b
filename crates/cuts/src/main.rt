//! Cuts the texts that standard input gives, asks the alphabets about letters, fills orders of stations, makes events, and
//! prints what comes of each. `tests/cutting.py` makes the cases, and says how they are written and what must come of them.
#![tactic(auto)]

mod byte_cases;
mod cases;
mod event_cases;
mod letters;
mod orders;
mod rules;
mod telling;

use std::io::{BufRead, BufReader, BufWriter, Write};

fn main(rt: HostRuntime) -> anyhow::Result<()> {
    let heap = rt.alloc();
    let mut out = BufWriter::new(heap, rt.stdout())?;
    for line in BufReader::new(heap, rt.stdin())?.lines(heap) {
        out.writeln(cases::outcome(heap, line?.as_str())?)?;
    }
    out.flush()?;
    Ok(())
}
