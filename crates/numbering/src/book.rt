//! The numbering book.
ghost use Rattle.std.specs.Prelude.{◌≡◌, take};
ghost use Rattle.std.specs.List.{slice_get};
ghost use Rattle.numbering.specs.Finding.{first_equal};
ghost use Rattle.numbering.specs.Numbering.{Out, Means, pages, placed, numbered};

use crate::same::Same;

/// Things in the order in which they were first met: the number of each is its place. The memory is the caller's, and
/// the first `count` places are in use. Numbering looks through them from the first, so it costs at most a test for
/// each thing in use.
#[derive(Drop)]
pub struct Book<'a, T> {
    pub items: &'a mut [T],
    pub count: usize,
}

impl<'a, T: Same> Book<'a, T> {
    /// The number of a thing, which gets the next one if it is met for the first time and a place is left.
    pub fn number(&mut self, thing: T) -> Option<usize>
        ensures whole { ◌≡◌ {A = Out T} (result, pages self.new.items.now self.new.count) (numbered T.Same.equal (pages self.old.items.now self.old.count) thing) }
        ensures means { Means T.Same.equal thing (pages self.old.items.now self.old.count) result (pages self.new.items.now self.new.count) }
        ensures lent { self.new.items.ghost_name ≡ self.old.items.ghost_name }
    {
        self.enter(thing)
    }

    /// The steps of `number`; that one says what they come to.
    fn enter(&mut self, thing: T) -> Option<usize>
        ensures whole { ◌≡◌ {A = Out T} (result, pages self.new.items.now self.new.count) (numbered T.Same.equal (pages self.old.items.now self.old.count) thing) }
        ensures lent { self.new.items.ghost_name ≡ self.old.items.ghost_name }
    {
        match find(self.in_use(), thing) {
            Some(number) => Some(number),
            None => self.append(thing),
        }
    }

    /// Puts a thing into the next place, if one is left: the place is its number.
    fn append(&mut self, thing: T) -> Option<usize>
        ensures whole { ◌≡◌ {A = Out T} (result, pages self.new.items.now self.new.count) (placed thing (pages self.old.items.now self.old.count) (pages self.old.items.now self.old.count).past) }
        ensures lent { self.new.items.ghost_name ≡ self.old.items.ghost_name }
    {
        let next = self.count;
        if next >= self.items.len() {
            return None;
        }
        self.items[next] = thing;
        self.count += 1;
        Some(next)
    }

    /// The thing with a number, if there is one.
    pub fn get(&self, number: usize) -> Option<T>
        ensures { result ≡ slice_get (take self.now.count self.now.items.now) number }
    {
        self.in_use().get(number).copied()
    }

    /// The things that have numbers. A count past the places there are means that all are in use.
    fn in_use(&self) -> &[T]
        ensures { result.now ≡ take self.now.count self.now.items.now }
    {
        &self.items[..self.count.min(self.items.len())]
    }
}

/// The place of the first of the items that is the thing.
pub fn find<T: Same>(items: &[T], thing: T) -> Option<usize>
    ensures { result ≡ first_equal T.Same.equal items.now thing }
{
    items.iter().position(|item| item.same(thing))
}
