//! The questions about lengths, asked before the text is looked at.
ghost use Rattle.std.specs.Prelude.{◌≡◌};
ghost use Rattle.refusals.specs.Questions.{first_no};
ghost use Rattle.reader.specs.Reading.{passing, room_asked};

use languages::rules::MOST_ATOMS;
use nodes::{FIRST_NODES, MOST_NODES};
use refusals::{Question, Refusal};

/// The most bytes of a text.
const LONGEST_TEXT: usize = 4096;

/// Asks of a text's length, a pool's size and the places for atoms whether reading can begin.
pub(crate) fn ask(text: usize, pool: usize, atoms: usize) -> Result<(), Refusal>
    ensures { result ≡ passing (first_no (room_asked text pool atoms)) }
{
    if !(1..=LONGEST_TEXT).contains(&text) {
        return Err(Question::TextLength.at(0));
    }
    let fits = (FIRST_NODES.len()..=MOST_NODES).contains(&pool) && atoms >= MOST_ATOMS;
    if !fits {
        return Err(Question::ReadingRoom.at(0));
    }
    Ok(())
}
