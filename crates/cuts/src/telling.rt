//! What comes of a call, and what an alphabet tells, as a line of text.
use crate::letters::Shown;
use alphabets::Alphabet;
use refusals::Refusal;
use std::alloc::{AllocError, Global};

/// The answer of a call that gives nothing.
pub fn answered(heap: Global, answer: Result<(), Refusal>) -> Result<String, AllocError> {
    match answer {
        Ok(()) => String::from_str(heap, "OK"),
        Err(Refusal { question, place }) => format!(in heap; "REFUSED {question} {place}"),
    }
}

/// Adds the kind and all classes: of each the class that its sample has, the sample and the answer set.
pub fn add_classes<L: Shown, A: Alphabet<Letter = L>>(
    line: &mut String,
    alphabet: &A,
) -> Result<(), AllocError> {
    let count = alphabet.class_count();
    write!(line, " kind {} classes {count}", alphabet.kind().number())?;
    for class in 0..count {
        if let (Some(sample), Some(answers)) = (alphabet.sample(class), alphabet.answers(class)) {
            write!(line, " ({} ", alphabet.class(sample))?;
            sample.add_to(line)?;
            write!(line, " {answers:08x})")?;
        }
    }
    write!(line, " past {} asked", told_past(alphabet, count))
}

/// How many of some numbers that no class has are answered as if one had.
fn told_past<A: Alphabet>(alphabet: &A, count: usize) -> usize {
    let past = [
        count,
        count.saturating_add(1),
        256,
        65536,
        1 << 32,
        usize::MAX,
    ];
    past.iter()
        .filter(|class| alphabet.sample(**class).is_some() || alphabet.answers(**class).is_some())
        .count()
}

/// Adds a letter and its class, where that is another than the class before.
pub fn add_change<L: Shown, A: Alphabet<Letter = L>>(
    line: &mut String,
    alphabet: &A,
    letter: L,
    before: &mut Option<usize>,
) -> Result<(), AllocError> {
    let class = alphabet.class(letter);
    if *before != Some(class) {
        *before = Some(class);
        line.push(' ')?;
        letter.add_to(line)?;
        write!(line, "={class}")?;
    }
    Ok(())
}
