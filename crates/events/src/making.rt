//! Cutting: the alphabet that the atoms of a rule make.
ghost use Rattle.std.specs.Prelude.{◌≡◌, [], ◌∷◌, IfErr, IfOk, Some};
ghost use Rattle.bench.specs.declared.code.Code.TheVariants.{C0};
ghost use Rattle.bench.specs.declared.station.Station.TheVariants.{S0};
ghost use Rattle.alphabets.specs.declared.kind.Kind.TheVariants.{Events};
ghost use Rattle.classes.specs.FirstMet.{AsFirstMet};
ghost use Rattle.classes.specs.Found.{samples_in, keys_in};
ghost use Rattle.cutting.specs.Bits.{BitsSay};
ghost use Rattle.cutting.specs.Cutting.{Out, limited};
ghost use Rattle.cutting.specs.Cutting.{cut as cut_of};
ghost use Rattle.cutting.specs.Reading.{atoms_of};
ghost use Rattle.cutting.specs.Tests.{in_use};
ghost use Rattle.bands.specs.Bands.{event_atom, in_order, admitted};
ghost use Rattle.sweeps.specs.Classes.{set_of, samples, count_of, sets};
ghost use Rattle.sweeps.specs.Letters.{event_at, all_events};
ghost use Rattle.events.specs.Making.{atoms_in};

use crate::alphabet::EventAlphabet;
use alphabets::Alphabet;
use bands::EventAtom;
use bench::Event;
use classes::{Classes, MOST_CLASSES};
use cutting::Tests;
use refusals::{Question, Refusal};
use surveys::Entry;
use sweeps::sweep;

/// Makes the alphabet of the first `count` atoms of a rule's text, where reading left its entries, and puts it into the
/// place. After a refusal the place holds what it held.
#[tactic(auto, using(classes::proofs::Laws::as_first_met))]
pub fn cut(
    text: &[u8],
    atoms: &[Entry],
    count: usize,
    place: &mut EventAlphabet,
) -> Result<(), Refusal>
    ensures whole { ◌≡◌ {A = Out EventAtom} (result, in_use place.new.tests) (cut_of count_of (atoms_of event_atom in_order text.now atoms.now count) (in_use place.old.tests)) }
    ensures kept { IfErr result (λ _. place.new ≡ place.old) }
    ensures kind { ⟦<EventAlphabet as Alphabet>⟧.kind_of place.new ≡ Events }
    ensures bits { IfOk result (λ _. BitsSay event_atom admitted text.now atoms.now count (⟦<EventAlphabet as Alphabet>⟧.meaning place.new)) }
    ensures first_met { AsFirstMet (⟦<EventAlphabet as Alphabet>⟧.meaning place.new) all_events (⟦<EventAlphabet as Alphabet>⟧.count_of place.new) (⟦<EventAlphabet as Alphabet>⟧.class_of place.new) (⟦<EventAlphabet as Alphabet>⟧.answers_of place.new) (⟦<EventAlphabet as Alphabet>⟧.sample_of place.new) }
{
    put(text, atoms, count, place)
}

impl EventAlphabet {
    /// The alphabet without atoms: all events are of one class.
    pub fn new() -> EventAlphabet
        ensures atoms { in_use result.tests ≡ [] }
        ensures one { ⟦<EventAlphabet as Alphabet>⟧.count_of result ≡ 1 }
        ensures sample { ⟦<EventAlphabet as Alphabet>⟧.sample_of result 0 ≡ Some (event_at C0 S0 0) }
        ensures answers { ⟦<EventAlphabet as Alphabet>⟧.answers_of result 0 ≡ Some 0 }
    {
        EventAlphabet {
            tests: Tests::none(),
            found: one_class(),
        }
    }
}

/// The one class of all events, met first in the first of them.
fn one_class() -> Classes<Event>
    ensures samples { samples_in result ≡ event_at C0 S0 0 ∷ [] }
    ensures keys { keys_in result ≡ 0 ∷ [] }
{
    let mut found = Classes::none();
    found.meet(Event::default(), 0);
    found
}

/// The steps of `cut`; that one says what they come to.
fn put(text: &[u8], atoms: &[Entry], count: usize, place: &mut EventAlphabet) -> Result<(), Refusal>
    ensures whole { ◌≡◌ {A = Out EventAtom} (result, in_use place.new.tests) (cut_of count_of (atoms_of event_atom in_order text.now atoms.now count) (in_use place.old.tests)) }
    ensures kept { IfErr result (λ _. place.new ≡ place.old) }
{
    *place = alphabet(Tests::read(text, atoms, count)?)?;
    Ok(())
}

/// The alphabet of some atoms.
fn alphabet(tests: Tests<EventAtom>) -> Result<EventAlphabet, Refusal>
    ensures { atoms_in result ≡ limited count_of (in_use tests) }
{
    let found = sweep(&tests).ok_or(Question::ClassCount.at(MOST_CLASSES))?;
    Ok(EventAlphabet { tests, found })
}
