//! Where the forms of a text go as they are read.
ghost use Rattle.std.specs.Prelude.{◌≡◌, ℕ, []};
ghost use Rattle.nodes.specs.Entering.{Held, Out, entered, held};
ghost use Rattle.nodes.specs.Pools.{pool_of};
ghost use Rattle.passes.specs.Passing.{Step, checked};

use nodes::{Form, Pool, enter};
use refusals::Refusal;

/// Where the forms of a text go as they are read.
pub(crate) trait Sink {
    /// The pool that it stands for.
    ghost pool: { Self → Held };

    /// What putting a form does.
    ghost step: { Step };

    /// Which memory it writes to, by the name of the borrow.
    ghost memory: { Self → ℕ };

    /// The node of a form.
    fn put(&mut self, form: Form) -> Result<u16, Refusal>
        ensures whole { ◌≡◌ {A = Out} (result, pool self.new) (step form (pool self.old)) }
        ensures lent { memory self.new ≡ memory self.old };
}

/// Where a text is only checked: nothing is written, and each node is 0.
#[derive(Clone, Copy)]
pub(crate) struct Checking;

impl Sink for Checking {
    ghost pool = { λ _. held [] 0 };

    ghost step = { checked };

    ghost memory = { λ _. 0 };

    fn put(&mut self, _form: Form) -> Result<u16, Refusal> {
        Ok(0)
    }
}

/// A pool enters the forms.
impl Sink for Pool<'_> {
    ghost pool = { pool_of };

    ghost step = { entered };

    ghost memory = { λ pool. pool.items.ghost_name };

    fn put(&mut self, form: Form) -> Result<u16, Refusal> {
        enter(self, form)
    }
}
