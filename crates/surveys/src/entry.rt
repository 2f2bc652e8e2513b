//! Where an atom of a text is written.
ghost use Rattle.std.specs.Prelude.{◌≡◌};
ghost use Rattle.surveys.specs.Entries.{text_at};

/// The place and the length of the text between an atom's `[` and its `]`.
#[derive(Clone, Copy, PartialEq, Eq, Debug, Default)]
pub struct Entry {
    pub place: usize,
    pub length: usize,
}

impl Entry {
    /// The bytes of the text that the entry speaks of; what stands past the end of the text is left out.
    pub fn of<'t>(self, text: &'t [u8]) -> &'t [u8]
        ensures { result.now ≡ text_at text.now self }
    {
        let rest = text.get(self.place..).unwrap_or(&[]);
        rest.get(..self.length).unwrap_or(rest)
    }
}
