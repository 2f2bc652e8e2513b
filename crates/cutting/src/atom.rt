//! Atoms.
ghost use Rattle.std.specs.Prelude.{◌≡◌, ℕ, Bool, List, Option};

use alphabets::Letter;

/// A test that admits some letters of an alphabet.
pub trait Atom: Copy + Default {
    type Letter: Letter;

    /// The atom that a text spells, if it has the form of one.
    ghost read_as: { List ℕ → Option Self };

    /// Whether the first letter of the atom is at most its last.
    ghost ordered: { Self → Bool };

    ghost admitting: { Self → Self.Letter → Bool };

    fn read(inside: &[u8]) -> Option<Self>
        ensures { result ≡ read_as inside.now };

    fn is_ordered(self) -> bool
        ensures { result ≡ ordered self };

    fn admits(self, letter: Self::Letter) -> bool
        ensures { result ≡ admitting self letter };
}
