//! Where a form is read.
ghost use Rattle.std.specs.Prelude.{◌≡◌};
ghost use Rattle.passes.specs.Passing.{opened};
ghost use Rattle.passes.specs.Standing.{stands_prop};
ghost use Rattle.surveys.specs.Looking.{Stands};

use grammar::Lexeme;
use refusals::{Question, Refusal};
use surveys::{Reader, advance};

/// The token from which a form is read, with what the text is read with, and how many levels are left to open.
#[derive(Clone, Copy)]
pub(crate) struct Walk<'r, 't> {
    pub(crate) first: Lexeme<'t>,
    pub(crate) reader: &'r Reader<'t>,
    pub(crate) levels: usize,
    ghost stands: { Stands reader.now.text.now first } by { stands_prop reader.now.text.now first },
}

impl<'r, 't> Walk<'r, 't> {
    ghost use Rattle.passes.specs.Going.{InsideOf, deeper, told_inside};

    /// The same walk at another token.
    pub(crate) fn at(self, first: Lexeme<'t>) -> Walk<'r, 't>
        requires { Stands self.reader.now.text.now first }
        ensures { (stands : _) × (result ≡ record self.entry { first = first.entry; stands = stands }) }
    {
        Walk {
            first,
            reader: self.reader,
            levels: self.levels,
        }
    }

    /// The walk one level deeper, at the token behind this one.
    pub(crate) fn inside(self) -> Result<Walk<'r, 't>, Refusal>
        ensures told { told_inside self.entry.reader.now result ≡ deeper self.entry }
        ensures lies { InsideOf self.entry result }
    {
        let levels = self.levels_inside()?;
        let first = advance(self.reader, self.first.after)?;
        Ok(Walk {
            first,
            reader: self.reader,
            levels,
        })
    }

    /// How many levels are left behind the token, which opens one.
    fn levels_inside(self) -> Result<usize, Refusal>
        ensures { result ≡ opened self.entry.levels self.entry.first.place }
    {
        self.levels
            .checked_sub(1)
            .ok_or(Question::LevelsOpen.at(self.first.place))
    }
}
