//! The fold layer.
ghost use Rattle.std.specs.Prelude.{◌≡◌};
ghost use Rattle.classes.specs.Found.{found, keys_in, samples_in};
ghost use Rattle.folds.specs.Folding.{asked, fold_answers, fold_class, fold_count, fold_keys, fold_sample, fold_samples, folded, found_next};
ghost use Rattle.folds.specs.Laws.{bounded, classed, counted, sampled};

use crate::bytes::folded;
use alphabets::{Alphabet, Kind};
use classes::Classes;

/// An alphabet of bytes over another one, which it asks about `a` to `z` in place of `A` to `Z`. Its classes are those
/// below, numbered as they are met from byte 0 up. It keeps no table, but asks below about all 256 bytes at each question
/// about a class, so that a fold of a fold asks some 65536 times.
#[derive(Clone, Copy)]
pub struct Fold<A> {
    pub below: A,
}

impl<A: Alphabet<Letter = u8>> Fold<A> {
    /// The classes of all bytes, each with the class below that it numbers.
    fn classes(&self) -> Classes<u8>
        ensures samples { samples_in result ≡ fold_samples (A.class_of self.now.below) }
        ensures keys { keys_in result ≡ fold_keys (A.class_of self.now.below) }
    {
        let mut classes = Classes::none();
        for byte in 0..=u8::MAX {
            self.meet(&mut classes, byte);
        }
        classes
    }

    /// Meets a byte, with the class below of the byte that is asked about. There is room for each: `a` comes behind `A`
    /// and makes no class.
    fn meet(&self, classes: &mut Classes<u8>, byte: u8)
        ensures { found classes.new ≡ found_next (A.class_of self.now.below) (found classes.old) byte }
    {
        classes.meet(byte, self.asked(byte));
    }

    /// The class below of the byte that is asked about.
    fn asked(&self, byte: u8) -> u32
        ensures { result ≡ asked (A.class_of self.now.below) byte }
    {
        self.below.class(folded(byte)) as u32
    }
}

impl<A: Alphabet<Letter = u8>> Alphabet for Fold<A> {
    type Letter = u8;

    ghost kind_of = { λ f. A.kind_of f.below };

    ghost count_of = { λ f. fold_count (A.class_of f.below) };

    ghost class_of = { λ f. fold_class (A.class_of f.below) };

    ghost answers_of = { λ f. fold_answers (A.class_of f.below) (A.answers_of f.below) };

    ghost sample_of = { λ f. fold_sample (A.class_of f.below) };

    ghost meaning = { λ f b. A.meaning f.below (folded b) };

    fn kind(&self) -> Kind {
        self.below.kind()
    }

    fn class_count(&self) -> usize {
        self.classes().count()
    }

    fn class(&self, letter: u8) -> usize {
        self.classes().number(self.asked(letter)).unwrap_or(0)
    }

    fn answers(&self, class: usize) -> Option<u32> {
        self.below.answers(self.classes().key(class)? as usize)
    }

    fn sample(&self, class: usize) -> Option<u8> {
        self.classes().sample(class)
    }

    ghost counted = { λ f. counted (A.class_of f.below) (A.kind_of f.below) };

    ghost classed = { λ f. classed (A.class_of f.below) (A.count_of f.below) (A.answers_of f.below) (A.meaning f.below) (A.classed f.below) };

    ghost sampled = { λ f. sampled (A.class_of f.below) };

    ghost bounded = { λ f. bounded (A.class_of f.below) (A.answers_of f.below) };
}
