//! Classes that are found one after the other.
ghost use Rattle.std.specs.Prelude.{◌≡◌, ◌<◌, ◌≤◌, [], length, IfSome};
ghost use Rattle.std.specs.List.{slice_get};
ghost use Rattle.classes.specs.Meeting.{number_in};
ghost use Rattle.classes.specs.Found.{Found, Out, samples_in, keys_in, found, met};

use numbering::{Book, find};

/// The most classes of an alphabet: a step file counts them in a byte.
pub const MOST_CLASSES: usize = 255;

/// Classes of letters by number, each with its key and with its sample, the letter that was met first. A key is what
/// the letters of a class have in common, and no others.
#[derive(Clone, Copy)]
pub struct Classes<L> {
    samples: [L; MOST_CLASSES],
    keys: [u32; MOST_CLASSES],
    count: usize,
}

impl<L: Copy + Default> Classes<L> {
    /// No class yet.
    pub fn none() -> Classes<L>
        ensures samples { samples_in result ≡ [] }
        ensures keys { keys_in result ≡ [] }
    {
        Classes {
            samples: [L::default(); MOST_CLASSES],
            keys: [0; MOST_CLASSES],
            count: 0,
        }
    }

    /// Meets a letter with its key, and gives the number of its class. A key met for the first time makes the next class,
    /// with the letter as its sample; where that would be one too many, there is no number and all stays as it was.
    pub fn meet(&mut self, letter: L, key: u32) -> Option<usize>
        ensures whole { ◌≡◌ {A = Out L} (result, found self.new) (met (found self.old) letter key) }
        ensures below { IfSome result (λ class. class < 255) }
    {
        let mut book = Book {
            items: &mut self.keys,
            count: self.count,
        };
        let class = book.number(key)?;
        if class == self.count {
            self.samples[class] = letter;
            self.count += 1;
        }
        Some(class)
    }

    /// How many classes there are.
    pub fn count(&self) -> usize
        ensures { result ≡ length (keys_in self.now) }
    {
        self.count.min(MOST_CLASSES)
    }

    /// The class of the letters with a key.
    pub fn number(&self, key: u32) -> Option<usize>
        ensures { result ≡ number_in (keys_in self.now) key }
    {
        find(&self.keys[..self.count()], key)
    }

    /// The key of a class.
    pub fn key(&self, class: usize) -> Option<u32>
        ensures { result ≡ slice_get (keys_in self.now) class }
    {
        self.keys[..self.count()].get(class).copied()
    }

    /// The letter of a class that was met first.
    pub fn sample(&self, class: usize) -> Option<L>
        ensures { result ≡ slice_get (samples_in self.now) class }
    {
        self.samples[..self.count()].get(class).copied()
    }
}
