//! Answer sets.
ghost use Rattle.std.specs.Prelude.{◌≡◌};
ghost use Rattle.languages.specs.Rules.{has};

use languages::rules::MOST_ATOMS;

/// Whether an answer set says that the atom admits the letter.
pub(crate) fn has_atom(answers: u32, atom: u16) -> bool
    ensures { result ≡ has atom answers }
{
    usize::from(atom) < MOST_ATOMS && (answers >> atom) % 2 == 1
}
