//! `inspect`: what a step file holds, in lines of text.
ghost use Rattle.std.specs.Prelude.{◌≡◌, ◌<◌, ◌++◌, IfOk, string_bytes, codes, decimal, OnOk};
ghost use Rattle.stepfiles.specs.Layout.{rows_in};
ghost use Rattle.stepfiles.specs.Views.{viewed};
ghost use Rattle.wafulexi.specs.Lines.{heading, row_line};

use crate::escapes::escaped;
use crate::failures::Failure;
use crate::input;
use crate::words::Source;
use std::alloc::{AllocError, Global};
use std::io;
use std::io::{BufWriter, Write};
use stepfiles::StepFile;

pub fn inspect(rt: &HostRuntime, source: Source) -> Result<(), Failure> {
    let bytes = input::read(rt, source)?;
    let mut file = StepFile::built_in();
    input::open(rt.alloc(), bytes.as_slice(), &mut file)?;
    print(rt, &file, bytes.len()).map_err(Failure::Unwritten)
}

fn print(rt: &HostRuntime, file: &StepFile<'_>, length: usize) -> io::Result<()> {
    let heap = rt.alloc();
    let mut out = BufWriter::new(heap, rt.stdout())?;
    out.writeln(heading(heap, file, length)?)?;
    out.writeln(escaped(heap, file.text())?)?;
    for row in 0..file.row_count() {
        out.writeln(row_line(heap, file, row)?)?;
    }
    out.flush()
}

fn heading(heap: Global, file: &StepFile<'_>, length: usize) -> Result<String, AllocError>
    ensures { IfOk result (λ s. string_bytes s ≡ heading (viewed file.now) length) }
{
    let kind = file.kind().number();
    let rows = file.row_count();
    let classes = file.class_count();
    let text = file.text().len();
    format!(in heap; "kind {kind} rows {rows} classes {classes} text {text} length {length}")
}

/// The row's number, its mark and its targets.
#[tactic(auto, using(crate::proofs::Listing::target_is, crate::proofs::Listing::no_targets, crate::proofs::Listing::one_more))]
fn row_line(heap: Global, file: &StepFile<'_>, row: usize) -> Result<String, AllocError>
    requires { row < rows_in (viewed file.now) }
    ensures { IfOk result (λ s. string_bytes s ≡ row_line (viewed file.now) row) }
{
    let mark = file.mark(row).unwrap().number();
    let mut line = format!(in heap; "{row} {mark}")?;
    let classes = file.class_count();
    for class in 0..classes {
        add(&mut line, file.target(row, class).unwrap())?;
    }
    Ok(line)
}

/// Adds a blank and a number to a line.
fn add(line: &mut String, number: usize) -> Result<(), AllocError>
    ensures { OnOk result (string_bytes line.new ≡ string_bytes line.old ++ (codes " " ++ decimal number)) }
{
    write!(line, " {number}")
}
