//! Alphabets of bytes.
ghost use Rattle.std.specs.Prelude.{◌≡◌, ◌≤◌};
ghost use Rattle.cutting.specs.Tests.{in_use};
ghost use Rattle.classes.specs.Found.{samples_in, keys_in};
ghost use Rattle.octets.specs.Classing.{count_of, samples, sets, table_of};

use crate::range::ByteRange;
use classes::Classes;
use cutting::Tests;

/// The bytes in classes, by the answer sets that the atoms of a rule give them. It holds the class of each byte, so that
/// asking for it is one look into a table. 1.6 KB in all.
#[derive(Clone, Copy)]
pub struct ByteAlphabet {
    pub(crate) tests: Tests<ByteRange>,
    pub(crate) classes: [u8; 256],
    pub(crate) found: Classes<u8>,
    ghost samples: { samples_in found ≡ samples (in_use tests) },
    ghost sets: { keys_in found ≡ sets (in_use tests) },
    ghost table: { classes ≡ table_of (in_use tests) },
    ghost most: { count_of (in_use tests) ≤ 255 },
}
