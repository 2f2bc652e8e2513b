//! Reading a text: every question first, then the work.
ghost use Rattle.std.specs.Prelude.{◌≡◌};
ghost use Rattle.reader.specs.Means.{ReadingMeans};
ghost use Rattle.reader.specs.Reading.{Outcome, read_text};

use crate::asking::ask;
use crate::writing::{begin, write_atoms};
use nodes::Node;
use passes::{check, enter_rule};
use refusals::Refusal;
use surveys::{Entry, survey};

/// What a text was read into: the node of its rule, and how many nodes and atoms there are.
#[derive(Clone, Copy, PartialEq, Eq, Debug)]
pub struct Reading {
    pub root: u16,
    pub nodes: usize,
    pub atoms: usize,
}

/// Reads a rule text into a pool of 4 to 4096 nodes and at least 32 places for atoms. A refusal of a question about the
/// text or the room leaves both as they were; where the nodes run out, those entered and the atoms stay.
pub fn read(text: &[u8], pool: &mut [Node], atoms: &mut [Entry]) -> Result<Reading, Refusal>
    ensures whole { ◌≡◌ {A = Outcome} (result, pool.new, atoms.new) (read_text text.now pool.old atoms.old) }
    ensures means { ReadingMeans text.now pool.old atoms.old (result, pool.new, atoms.new) }
{
    read_text(text, pool, atoms)
}

/// The steps of `read`; that one says what they come to.
fn read_text(text: &[u8], pool: &mut [Node], atoms: &mut [Entry]) -> Result<Reading, Refusal>
    ensures { ◌≡◌ {A = Outcome} (result, pool.new, atoms.new) (read_text text.now pool.old atoms.old) }
{
    ask(text.len(), pool.len(), atoms.len())?;
    let reader = survey(text);
    check(&reader)?;
    let mut pool = begin(pool);
    let found = reader.atoms.as_slice();
    write_atoms(found, atoms);
    let root = enter_rule(&reader, &mut pool)?;
    Ok(Reading {
        root,
        nodes: pool.count,
        atoms: found.len(),
    })
}
