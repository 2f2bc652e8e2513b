//! Cutting the atoms of a rule, and asking the alphabet for the classes of a recording; over bytes, asking a fold and a fold
//! of folds, too.
use crate::{Task, each, tell_refusal, timed};
use alphabets::Alphabet;
use bench::{Code, Event, Station};
use events::EventAlphabet;
use folds::Fold;
use nodes::{MOST_NODES, Node};
use octets::ByteAlphabet;
use reader::{Entry, MOST_ATOMS, read};
use refusals::Refusal;
use std::time::Duration;
use std::{fs, io};

/// The letters of a recording.
const LETTERS: usize = 4096;

/// The atoms of a rule, as reading leaves them.
#[derive(Clone, Copy)]
struct Atoms {
    entries: [Entry; MOST_ATOMS],
    count: usize,
}

impl Atoms {
    fn of(text: &[u8]) -> Result<Atoms, Refusal> {
        let mut nodes = [Node::default(); MOST_NODES];
        let mut entries = [Entry::default(); MOST_ATOMS];
        let count = read(text, &mut nodes, &mut entries)?.atoms;
        Ok(Atoms { entries, count })
    }
}

/// An alphabet that atoms are cut into.
trait Place: Alphabet + Copy {
    fn empty() -> Self;

    fn cut(&mut self, text: &[u8], atoms: &Atoms) -> Result<(), Refusal>;

    fn tell_class(&self, rt: &HostRuntime, class: usize) -> io::Result<()>;
}

impl Place for ByteAlphabet {
    fn empty() -> ByteAlphabet {
        ByteAlphabet::new()
    }

    fn cut(&mut self, text: &[u8], atoms: &Atoms) -> Result<(), Refusal> {
        octets::cut(text, &atoms.entries, atoms.count, self)
    }

    fn tell_class(&self, rt: &HostRuntime, class: usize) -> io::Result<()> {
        let sample = self.sample(class).unwrap_or_default();
        let answers = self.answers(class).unwrap_or_default();
        println!(rt; "{class} {sample:02x} {answers:08x}")
    }
}

impl Place for EventAlphabet {
    fn empty() -> EventAlphabet {
        EventAlphabet::new()
    }

    fn cut(&mut self, text: &[u8], atoms: &Atoms) -> Result<(), Refusal> {
        events::cut(text, &atoms.entries, atoms.count, self)
    }

    fn tell_class(&self, rt: &HostRuntime, class: usize) -> io::Result<()> {
        let Event {
            code,
            station,
            pressure,
        } = self.sample(class).unwrap_or_default();
        let code = code.number();
        let station = station.number();
        let answers = self.answers(class).unwrap_or_default();
        println!(rt; "{class} {code:x} {station:x} {pressure:04x} {answers:08x}")
    }
}

pub fn run_bytes(rt: &HostRuntime, task: &Task) -> anyhow::Result<()> {
    let recording = recorded_bytes();
    if let Some(below) = run::<ByteAlphabet>(rt, &recording, task)? {
        time_folds(rt, below, &recording, task)?;
    }
    Ok(())
}

pub fn run_events(rt: &HostRuntime, task: &Task) -> anyhow::Result<()> {
    run::<EventAlphabet>(rt, &recorded_events(), task)?;
    Ok(())
}

/// Cuts the rule of the task, asks for the classes of the recording, and says how long both take. Gives the alphabet, if
/// the rule has one.
fn run<P: Place>(
    rt: &HostRuntime,
    recording: &[P::Letter],
    task: &Task,
) -> anyhow::Result<Option<P>> {
    let bytes = fs::read(rt, task.file.as_str())?;
    let text = bytes.as_slice();
    let mut alphabet = P::empty();
    match first_cut(text, &mut alphabet) {
        Ok(atoms) => {
            tell(rt, &alphabet)?;
            time_cutting(rt, text, &atoms, &mut alphabet, task)?;
            time_recording(rt, &alphabet, recording, task)?;
            Ok(Some(alphabet))
        }
        Err(refusal) => {
            tell_refusal(rt, refusal)?;
            Ok(None)
        }
    }
}

fn first_cut<P: Place>(text: &[u8], place: &mut P) -> Result<Atoms, Refusal> {
    let atoms = Atoms::of(text)?;
    place.cut(text, &atoms)?;
    Ok(atoms)
}

fn tell<P: Place>(rt: &HostRuntime, alphabet: &P) -> io::Result<()> {
    let count = alphabet.class_count();
    println!(rt; "classes {count}")?;
    for class in 0..count {
        alphabet.tell_class(rt, class)?;
    }
    Ok(())
}

/// Says how long a cut takes in the best round.
fn time_cutting<P: Place>(
    rt: &HostRuntime,
    text: &[u8],
    atoms: &Atoms,
    place: &mut P,
    task: &Task,
) -> io::Result<()> {
    let mut best = Duration::MAX;
    for _ in 0..task.rounds {
        let ((), took) = timed(rt, || cut_often(text, atoms, place, task.count))?;
        best = best.min(took);
    }
    let cut = each(best, u64::from(task.count));
    eprintln!(rt; "{cut} ns a cut")
}

/// Says how long the classes of a recording take in the best round, and what they add up to.
fn time_recording<P: Place>(
    rt: &HostRuntime,
    alphabet: &P,
    recording: &[P::Letter],
    task: &Task,
) -> io::Result<()> {
    let (best, sum) = time_asking(rt, alphabet, recording, task.count, task.rounds)?;
    println!(rt; "sum {sum}")?;
    let asked = each(best, u64::from(task.count));
    eprintln!(rt; "{asked} ns a recording")
}

/// Says the same of a fold and of a fold of folds, which are asked about few letters, since they ask many times below.
fn time_folds(
    rt: &HostRuntime,
    below: ByteAlphabet,
    recording: &[u8; LETTERS],
    task: &Task,
) -> io::Result<()> {
    let few = LETTERS.min(task.count as usize);
    let fewer = few / 256 + 1;
    let fold = Fold { below };
    let (by_fold, sum) = time_asking(rt, &fold, &recording[..few], 1, task.rounds)?;
    println!(rt; "sum {sum}")?;
    let folds = Fold { below: fold };
    let (by_folds, sum) = time_asking(rt, &folds, &recording[..fewer], 1, task.rounds)?;
    println!(rt; "sum {sum}")?;
    let by_fold = each(by_fold, few as u64);
    let by_folds = each(by_folds, fewer as u64);
    eprintln!(rt; "{by_fold} ns a fold, {by_folds} ns a fold of folds")
}

/// The time that asking about letters `count` times takes in the best round, and the sum of the classes in all.
fn time_asking<A: Alphabet>(
    rt: &HostRuntime,
    alphabet: &A,
    letters: &[A::Letter],
    count: u32,
    rounds: u32,
) -> io::Result<(Duration, usize)> {
    let mut best = Duration::MAX;
    let mut all = 0usize;
    for _ in 0..rounds {
        let (sum, took) = timed(rt, || ask_often(alphabet, letters, count))?;
        best = best.min(took);
        all = all.wrapping_add(sum);
    }
    Ok((best, all))
}

/// Cuts the atoms so many times.
fn cut_often<P: Place>(text: &[u8], atoms: &Atoms, place: &mut P, count: u32) {
    for _ in 0..count {
        let _ = place.cut(text, atoms);
    }
}

/// Asks about the letters so many times, and adds their classes.
fn ask_often<A: Alphabet>(alphabet: &A, letters: &[A::Letter], count: u32) -> usize {
    let mut sum = 0usize;
    for _ in 0..count {
        for &letter in letters {
            sum = sum.wrapping_add(alphabet.class(letter));
        }
    }
    sum
}

fn recorded_bytes() -> [u8; LETTERS] {
    let mut recording = [0u8; LETTERS];
    for i in 0..LETTERS {
        recording[i] = ((i * 167 + i / 256) & 0xff) as u8;
    }
    recording
}

fn recorded_events() -> [Event; LETTERS] {
    let mut recording = [Event::default(); LETTERS];
    for i in 0..LETTERS {
        recording[i] = Event {
            code: Code::ALL[i % 16],
            station: Station::ALL[i / 16 % 8],
            pressure: ((i * 40503) & 0xffff) as u16,
        };
    }
    recording
}
