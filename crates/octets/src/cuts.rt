//! Cutting: making the alphabet of a rule's atoms.
ghost use Rattle.std.specs.Prelude.{◌≡◌, IfOk, IfErr};
ghost use Rattle.classes.specs.Bytes.{all_bytes};
ghost use Rattle.alphabets.specs.declared.kind.Kind.TheVariants.{Bytes};
ghost use Rattle.classes.specs.FirstMet.{AsFirstMet};
ghost use Rattle.cutting.specs.Bits.{BitsSay};
ghost use Rattle.cutting.specs.Cutting.{Out};
ghost use Rattle.cutting.specs.Cutting.{cut as cut_of};
ghost use Rattle.cutting.specs.Reading.{atoms_of};
ghost use Rattle.cutting.specs.Tests.{in_use};
ghost use Rattle.octets.specs.Classing.{set_of, count_of};
ghost use Rattle.octets.specs.Ranges.{admitting, ordered, read_as};

use crate::alphabet::ByteAlphabet;
use crate::making::alphabet;
use crate::range::ByteRange;
use alphabets::Alphabet;
use cutting::Tests;
use refusals::Refusal;
use surveys::Entry;

/// Makes the alphabet of the first `count` atoms of a rule's text, each where its entry says that it is written, and
/// puts it into the place. After a refusal the place is as it was.
#[tactic(auto, using(classes::proofs::Laws::as_first_met))]
pub fn cut(
    text: &[u8],
    atoms: &[Entry],
    count: usize,
    place: &mut ByteAlphabet,
) -> Result<(), Refusal>
    ensures whole { ◌≡◌ {A = Out ByteRange} (result, in_use place.new.tests) (cut_of count_of (atoms_of read_as ordered text.now atoms.now count) (in_use place.old.tests)) }
    ensures kept { IfErr result (λ _. place.new ≡ place.old) }
    ensures kind { ⟦<ByteAlphabet as Alphabet>⟧.kind_of place.new ≡ Bytes }
    ensures bits { IfOk result (λ _. BitsSay read_as admitting text.now atoms.now count (⟦<ByteAlphabet as Alphabet>⟧.meaning place.new)) }
    ensures first_met { AsFirstMet (⟦<ByteAlphabet as Alphabet>⟧.meaning place.new) all_bytes (⟦<ByteAlphabet as Alphabet>⟧.count_of place.new) (⟦<ByteAlphabet as Alphabet>⟧.class_of place.new) (⟦<ByteAlphabet as Alphabet>⟧.answers_of place.new) (⟦<ByteAlphabet as Alphabet>⟧.sample_of place.new) }
{
    put_alphabet(text, atoms, count, place)
}

/// The steps of `cut`; that one says what they come to.
fn put_alphabet(
    text: &[u8],
    atoms: &[Entry],
    count: usize,
    place: &mut ByteAlphabet,
) -> Result<(), Refusal>
    ensures whole { ◌≡◌ {A = Out ByteRange} (result, in_use place.new.tests) (cut_of count_of (atoms_of read_as ordered text.now atoms.now count) (in_use place.old.tests)) }
    ensures kept { IfErr result (λ _. place.new ≡ place.old) }
{
    *place = alphabet(Tests::read(text, atoms, count)?)?;
    Ok(())
}
