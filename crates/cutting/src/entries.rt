//! Reading an atom where its entry says that it is written.
ghost use Rattle.std.specs.Prelude.{◌≡◌};
ghost use Rattle.cutting.specs.Reading.{atom_of, entry_for, inside};

use crate::atom::Atom;
use languages::rules::MOST_ATOMS;
use refusals::{Question, Refusal};
use surveys::Entry;

/// Reads the atom with a number.
pub(crate) fn read_atom<A: Atom>(
    text: &[u8],
    entries: &[Entry],
    number: usize,
) -> Result<A, Refusal>
    ensures { result ≡ atom_of A.read_as A.ordered text.now entries.now number }
{
    let entry = entry_of(text, entries, number).ok_or(Question::AtomEntry.at(number))?;
    let atom = A::read(entry.of(text)).ok_or(Question::AtomForm.at(entry.place))?;
    if !atom.is_ordered() {
        return Err(Question::AtomOrder.at(entry.place));
    }
    Ok(atom)
}

/// The entry of the atom with a number, if a rule can have that atom, and the entry is there and speaks of a part of the text.
fn entry_of(text: &[u8], entries: &[Entry], number: usize) -> Option<Entry>
    ensures { result ≡ entry_for text.now entries.now number }
{
    if number >= MOST_ATOMS {
        return None;
    }
    entries
        .get(number)
        .copied()
        .filter(|entry| is_inside(text, *entry))
}

/// Whether an entry speaks of a part of the text. Its numbers may be as large as can be.
fn is_inside(text: &[u8], entry: Entry) -> bool
    ensures { result ≡ inside text.now entry }
{
    entry.place <= text.len() && entry.length <= text.len() - entry.place
}
