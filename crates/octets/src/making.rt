//! Making alphabets of bytes.
ghost use Rattle.std.specs.Prelude.{◌≡◌, [], ◌∷◌, Some};
ghost use Rattle.classes.specs.Found.{keys_in, met, samples_in};
ghost use Rattle.classes.specs.Found.{found as found_in};
ghost use Rattle.cutting.specs.Cutting.{limited};
ghost use Rattle.cutting.specs.Tests.{in_use};
ghost use Rattle.octets.specs.Classing.{set_of, count_of, samples, sets};
ghost use Rattle.octets.specs.Making.{Given, atoms_in, given};

use crate::alphabet::ByteAlphabet;
use crate::range::ByteRange;
use alphabets::Alphabet;
use classes::{Classes, MOST_CLASSES};
use cutting::Tests;
use refusals::{Question, Refusal};

impl ByteAlphabet {
    /// The alphabet without atoms: all bytes are of one class, whose answer set is 0.
    pub fn new() -> ByteAlphabet
        ensures atoms { in_use result.tests ≡ [] }
        ensures one { ⟦<ByteAlphabet as Alphabet>⟧.count_of result ≡ 1 }
        ensures sample { ⟦<ByteAlphabet as Alphabet>⟧.sample_of result 0 ≡ Some 0 }
        ensures answers { ⟦<ByteAlphabet as Alphabet>⟧.answers_of result 0 ≡ Some 0 }
    {
        ByteAlphabet {
            tests: Tests::none(),
            classes: [0; 256],
            found: only_class(),
        }
    }
}

/// The class of all bytes where there are no atoms.
fn only_class() -> Classes<u8>
    ensures samples { samples_in result ≡ 0 ∷ [] }
    ensures keys { keys_in result ≡ 0 ∷ [] }
{
    let mut found = Classes::none();
    found.meet(0, 0);
    found
}

/// The alphabet of some atoms: from byte 0 up, each answer set that was not met before makes the next class.
pub(crate) fn alphabet(tests: Tests<ByteRange>) -> Result<ByteAlphabet, Refusal>
    ensures { atoms_in result ≡ limited count_of (in_use tests) }
{
    let mut found = Classes::none();
    let mut classes = [0; 256];
    for (byte, class) in classes.iter_mut().enumerate() {
        *class = meet(&tests, &mut found, byte as u8)?;
    }
    Ok(ByteAlphabet {
        tests,
        classes,
        found,
    })
}

/// Meets the next byte, and gives its class.
fn meet(tests: &Tests<ByteRange>, found: &mut Classes<u8>, byte: u8) -> Result<u8, Refusal>
    ensures { ◌≡◌ {A = Given} (result, found_in found.new) (given (met (found_in found.old) byte (set_of (in_use tests.now) byte))) }
{
    let class = found
        .meet(byte, tests.answers(byte))
        .ok_or(Question::ClassCount.at(MOST_CLASSES))?;
    Ok(class as u8)
}
