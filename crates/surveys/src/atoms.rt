//! The atoms of a text, as they are kept while it is read.
ghost use Rattle.std.specs.Prelude.{◌≡◌, length};

use crate::entry::Entry;
use languages::rules::MOST_ATOMS;

/// Atoms by number: the places in use are the first `count`, and all of them where the count is past the last.
#[derive(Clone, Copy)]
pub struct Atoms {
    pub entries: [Entry; MOST_ATOMS],
    pub count: usize,
    ghost places: { length entries ≡ 32 },
}
