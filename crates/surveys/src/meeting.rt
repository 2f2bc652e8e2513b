//! Numbering the atoms of a text as they are first met.
ghost use Rattle.std.specs.Prelude.{◌≡◌, ◌<◌, ◌≤◌, [], IfSome, length, unwrap_or};
ghost use Rattle.grammar.specs.Atoms.{number_of};
ghost use Rattle.surveys.specs.Entries.{Meeting, listed, meeting, numbered, texts_in};
ghost use Rattle.surveys.specs.Padding.{IsPadded};

use crate::atoms::Atoms;
use crate::entry::Entry;
use languages::rules::MOST_ATOMS;

impl Atoms {
    /// No atom yet.
    pub(crate) fn new() -> Atoms
        ensures none { listed result ≡ [] }
        ensures padded { IsPadded result.count result.entries }
    {
        Atoms {
            entries: [Entry::default(); MOST_ATOMS],
            count: 0,
        }
    }

    /// The entries of the atoms, by number.
    pub fn as_slice(&self) -> &[Entry]
        ensures value { result.now ≡ listed self.now }
        ensures most { length result.now ≤ 32 }
    {
        &self.entries[..self.count.min(MOST_ATOMS)]
    }

    /// How many atoms there are.
    pub fn used(&self) -> usize
        ensures value { result ≡ length (listed self.now) }
        ensures most { result ≤ 32 }
    {
        self.as_slice().len()
    }

    /// The number of the first atom that is written as `inside`; the number of atoms where there is none.
    pub fn number(&self, text: &[u8], inside: &[u8]) -> usize
        ensures value { result ≡ number_of (texts_in text.now (listed self.now)) inside.now }
        ensures most { result ≤ 32 }
    {
        self.find(text, inside).unwrap_or(self.used())
    }

    /// The number of the first atom that is written as `inside`, if there is one. The grammar's number of an
    /// atom that is not there is how many there are.
    #[tactic(auto, using(crate::proofs::Known::number_is))]
    pub fn find(&self, text: &[u8], inside: &[u8]) -> Option<usize>
        ensures value { result ≡ numbered text.now (listed self.now) inside.now }
        ensures names { unwrap_or result (length (listed self.now)) ≡ number_of (texts_in text.now (listed self.now)) inside.now }
        ensures most { IfSome result (λ n. n < 32) }
    {
        self.first_written(text, inside)
    }

    /// The place of the first entry that is written as `inside`, if there is one.
    fn first_written(&self, text: &[u8], inside: &[u8]) -> Option<usize>
        ensures value { result ≡ numbered text.now (listed self.now) inside.now }
        ensures most { IfSome result (λ n. n < 32) }
    {
        self.as_slice()
            .iter()
            .position(|entry| entry.of(text) == inside)
    }

    /// Meets the bracket at `place` with the bytes `inside`: one that is met for the first time is the next atom. Says
    /// no, and keeps all as it was, where that would be one too many.
    #[tactic(auto, using(crate::proofs::Known::met_known, crate::proofs::Known::met_full, crate::proofs::Known::met_new))]
    pub(crate) fn meet(&mut self, text: &[u8], place: usize, inside: &[u8]) -> bool
        requires { place < length text.now }
        ensures met { ◌≡◌ {A = Meeting} (result, listed self.new) (meeting text.now (listed self.old) place inside.now) }
        ensures padded { IsPadded self.old.count self.old.entries → IsPadded self.new.count self.new.entries }
    {
        if self.find(text, inside).is_some() {
            return true;
        }
        let used = self.used();
        if used == MOST_ATOMS {
            return false;
        }
        self.entries[used] = Entry {
            place: place + 1,
            length: inside.len(),
        };
        self.count = used + 1;
        true
    }
}
