//! What an alphabet of bytes tells.
ghost use Rattle.std.specs.Prelude.{◌≡◌, slice_index};
ghost use Rattle.std.specs.List.{slice_get};
ghost use Rattle.alphabets.specs.declared.kind.Kind.TheVariants.{Bytes};
ghost use Rattle.cutting.specs.Tests.{in_use};
ghost use Rattle.classes.proofs.Bytes.{counted, classed, sampled, bounded};
ghost use Rattle.octets.specs.Classing.{set_of, class_of, count_of, samples, sets};

use crate::alphabet::ByteAlphabet;
use alphabets::{Alphabet, Kind};

impl Alphabet for ByteAlphabet {
    type Letter = u8;

    ghost kind_of = { λ a. Bytes };

    ghost count_of = { λ a. count_of (in_use a.tests) };

    ghost class_of = { λ a b. class_of (in_use a.tests) b };

    ghost answers_of = { λ a k. slice_get (sets (in_use a.tests)) k };

    ghost sample_of = { λ a k. slice_get (samples (in_use a.tests)) k };

    ghost meaning = { λ a b. set_of (in_use a.tests) b };

    fn kind(&self) -> Kind {
        Kind::Bytes
    }

    fn class_count(&self) -> usize {
        self.found.count()
    }

    fn class(&self, letter: u8) -> usize {
        usize::from(look_up(&self.classes, letter))
    }

    fn answers(&self, class: usize) -> Option<u32> {
        self.found.key(class)
    }

    fn sample(&self, class: usize) -> Option<u8> {
        self.found.sample(class)
    }

    ghost counted = { λ a. counted (set_of (in_use a.tests)) Bytes a.most };

    ghost classed = { λ a. classed (set_of (in_use a.tests)) };

    ghost sampled = { λ a. sampled (set_of (in_use a.tests)) };

    ghost bounded = { λ a. bounded (set_of (in_use a.tests)) };
}

/// What a table of all bytes has for one.
fn look_up(table: &[u8; 256], byte: u8) -> u8
    ensures { result ≡ slice_index table.now byte }
{
    table[usize::from(byte)]
}
