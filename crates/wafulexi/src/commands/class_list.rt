//! `classes`: which letters the atoms of a rule tell apart, in lines of text.
ghost use Rattle.std.specs.Prelude.{◌≡◌, ◌<◌, Some, IfOk, string_bytes};
ghost use Rattle.wafulexi.specs.ClassLines.{counted, class_line};

use crate::failures::Failure;
use crate::options::{Cutting, Letters};
use crate::rules::{Rule, placed};
use crate::samples::Sample;
use crate::{input, rules};
use alphabets::Alphabet;
use events::EventAlphabet;
use folds::Fold;
use octets::ByteAlphabet;
use stations::{StationOrder, Stations};
use std::alloc::{AllocError, Global};
use std::io;
use std::io::{BufWriter, Write};

pub fn classes(rt: &HostRuntime, cutting: Cutting) -> Result<(), Failure> {
    let heap = rt.alloc();
    let Cutting { letters, source } = cutting;
    let bytes = input::read(rt, source)?;
    let text = bytes.as_slice();
    let rule = rules::read(heap, text)?;
    match letters {
        Letters::Bytes => list(rt, &of_bytes(heap, text, &rule)?),
        Letters::FoldedBytes => {
            let below = of_bytes(heap, text, &rule)?;
            list(rt, &Fold { below })
        }
        Letters::Events => list(rt, &of_events(heap, text, &rule)?),
        Letters::CrossedEvents(entries) => {
            let below = of_events(heap, text, &rule)?;
            let mut order = StationOrder::new();
            order.fill(&entries)?;
            list(rt, &Stations { below, order })
        }
    }
}

/// The alphabet of bytes that the atoms of a rule make.
fn of_bytes(heap: Global, text: &[u8], rule: &Rule) -> Result<ByteAlphabet, Failure> {
    let mut place = ByteAlphabet::new();
    let outcome = octets::cut(text, &rule.atoms, rule.reading.atoms, &mut place);
    placed(heap, text, outcome)?;
    Ok(place)
}

/// The alphabet of bench events that the atoms of a rule make.
fn of_events(heap: Global, text: &[u8], rule: &Rule) -> Result<EventAlphabet, Failure> {
    let mut place = EventAlphabet::new();
    let outcome = events::cut(text, &rule.atoms, rule.reading.atoms, &mut place);
    placed(heap, text, outcome)?;
    Ok(place)
}

fn list<L: Sample, A: Alphabet<Letter = L>>(rt: &HostRuntime, alphabet: &A) -> Result<(), Failure> {
    print(rt, alphabet).map_err(Failure::Unwritten)
}

fn print<L: Sample, A: Alphabet<Letter = L>>(rt: &HostRuntime, alphabet: &A) -> io::Result<()> {
    let heap = rt.alloc();
    let mut out = BufWriter::new(heap, rt.stdout())?;
    out.writeln(heading(heap, alphabet.class_count())?)?;
    for class in 0..alphabet.class_count() {
        out.writeln(class_line(heap, alphabet, class)?)?;
    }
    out.flush()
}

fn heading(heap: Global, count: usize) -> Result<String, AllocError>
    ensures { IfOk result (λ s. string_bytes s ≡ counted count) }
{
    format!(in heap; "classes {count}")
}

/// The class's number, its sample and its answer set.
#[tactic(auto, using(crate::proofs::Digits::eight_digits))]
fn class_line<L: Sample, A: Alphabet<Letter = L>>(
    heap: Global,
    alphabet: &A,
    class: usize,
) -> Result<String, AllocError>
    requires { class < A.count_of alphabet.now }
    ensures { IfOk result (λ s. class_line L.text class (A.sample_of alphabet.now class) (A.answers_of alphabet.now class) ≡ Some (string_bytes s)) }
{
    let sample = alphabet.sample(class).unwrap().show(heap)?;
    let answers = alphabet.answers(class).unwrap();
    format!(in heap; "{class} {sample} {answers:08x}")
}
