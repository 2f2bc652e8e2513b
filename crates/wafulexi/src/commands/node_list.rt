//! `nodes`: what a rule text is read as, in lines of text.
ghost use Rattle.std.specs.Prelude.{◌≡◌, take, drop, IfOk, string_bytes};
ghost use Rattle.wafulexi.specs.NodeLines.{summed, node_line, atom_line};

use crate::escapes::escaped;
use crate::failures::Failure;
use crate::rules::Rule;
use crate::words::Source;
use crate::{input, rules};
use nodes::Node;
use reader::{Entry, Reading};
use std::alloc::{AllocError, Global};
use std::io;
use std::io::{BufWriter, Write};

pub fn nodes(rt: &HostRuntime, source: Source) -> Result<(), Failure> {
    let bytes = input::read(rt, source)?;
    let rule = rules::read(rt.alloc(), bytes.as_slice())?;
    print(rt, bytes.as_slice(), &rule).map_err(Failure::Unwritten)
}

fn print(rt: &HostRuntime, text: &[u8], rule: &Rule) -> io::Result<()> {
    let heap = rt.alloc();
    let mut out = BufWriter::new(heap, rt.stdout())?;
    let Reading { nodes, atoms, .. } = rule.reading;
    out.writeln(heading(heap, rule.reading)?)?;
    for (number, node) in rule.nodes.iter().take(nodes).enumerate() {
        out.writeln(node_line(heap, number, *node)?)?;
    }
    for (number, atom) in rule.atoms.iter().take(atoms).enumerate() {
        out.writeln(atom_line(heap, text, number, *atom)?)?;
    }
    out.flush()
}

fn heading(heap: Global, reading: Reading) -> Result<String, AllocError>
    ensures { IfOk result (λ s. string_bytes s ≡ summed reading.root reading.nodes reading.atoms) }
{
    let Reading { root, nodes, atoms } = reading;
    format!(in heap; "root {root} nodes {nodes} atoms {atoms}")
}

/// The node's number, its kind, its parts and its flag.
fn node_line(heap: Global, number: usize, node: Node) -> Result<String, AllocError>
    ensures { IfOk result (λ s. string_bytes s ≡ node_line number node) }
{
    let Node {
        kind,
        left,
        right,
        nullable,
    } = node;
    let flag = u8::from(nullable);
    format!(in heap; "{number} {kind} {left} {right} {flag}")
}

/// The atom's number, its place, and its part of the text.
fn atom_line(heap: Global, text: &[u8], number: usize, atom: Entry) -> Result<String, AllocError>
    ensures { IfOk result (λ s. string_bytes s ≡ atom_line text.now number atom.place atom.length) }
{
    let place = atom.place;
    let inside = escaped(heap, atom.of(text))?;
    format!(in heap; "atom {number} {place} {inside}")
}
