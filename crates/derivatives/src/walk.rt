//! The derivative of a node.
ghost use Rattle.std.specs.Prelude.{◌≡◌, ℕ, ◌<◌};
ghost use Rattle.nodes.specs.declared.form.Form.{Form};
ghost use Rattle.nodes.specs.Entering.{Out, bind, entered};
ghost use Rattle.nodes.specs.Deriving.{derived, derived_by, derivation};
ghost use Rattle.derivatives.specs.Parts.{rejoined};
ghost use Rattle.nodes.specs.Pools.{pool_of};
ghost use Rattle.nodes.specs.Promises.{DerivingMeans};

use crate::answer::has_atom;
use crate::parts::{enter_turns, rejoin, second_part};
use nodes::{EMPTY, Form, NONE, Pool, enter, form_at};
use refusals::Refusal;

/// The node of what may follow a letter whose answer set is given.
pub fn derive(pool: &mut Pool, node: u16, answers: u32) -> Result<u16, Refusal>
    ensures whole { ◌≡◌ {A = Out} (result, pool_of pool.new) (derivation answers node (pool_of pool.old)) }
    ensures means { DerivingMeans answers node (pool_of pool.old) (result, pool_of pool.new) }
    ensures lent { pool.new.items.ghost_name ≡ pool.old.items.ghost_name }
{
    derive_node(pool, node, answers)
}

/// The steps of `derive`. Parts are smaller than their nodes, so any depth above the node's number is deep enough.
#[cycle(deriving)]
fn derive_node(pool: &mut Pool, node: u16, answers: u32) -> Result<u16, Refusal>
    ensures whole { (k : ℕ) → node < k → ◌≡◌ {A = Out} (result, pool_of pool.new) (derived k answers node (pool_of pool.old)) }
    ensures lent { pool.new.items.ghost_name ≡ pool.old.items.ghost_name }
{
    let form = form_at(pool, node);
    match form {
        Form::None | Form::Empty => Ok(NONE),
        Form::Any => Ok(EMPTY),
        Form::Atom(atom) => Ok(if has_atom(answers, atom) { EMPTY } else { NONE }),
        Form::Sequence(left, right) => derive_sequence(pool, left, right, answers),
        Form::Or(left, right) | Form::And(left, right) => {
            derive_both(pool, form, left, right, answers)
        }
        Form::Star(part) => derive_star(pool, node, part, answers),
        Form::Not(part) => derive_not(pool, part, answers),
    }
}

// The steps of the forms with parts. Derivatives nest as deep as nodes do, so each step has a frame that holds just what
// it needs.

#[inline(never)]
#[cycle(deriving)]
fn derive_sequence(pool: &mut Pool, left: u16, right: u16, answers: u32) -> Result<u16, Refusal>
    ensures whole { (k : ℕ) → left < k → right < k → ◌≡◌ {A = Out} (result, pool_of pool.new) (derived_by (derived k answers) answers 0 (pool_of pool.old).used (Form.Sequence left right) (pool_of pool.old)) }
    ensures lent { pool.new.items.ghost_name ≡ pool.old.items.ghost_name }
{
    let second = second_part(pool, left, right);
    let first = derive_node(pool, left, answers)?;
    let begun = enter(pool, Form::Sequence(first, right))?;
    let Some(part) = second else {
        return Ok(begun);
    };
    let last = derive_node(pool, part, answers)?;
    enter(pool, Form::Or(begun, last))
}

#[inline(never)]
#[cycle(deriving)]
fn derive_both(
    pool: &mut Pool,
    form: Form,
    left: u16,
    right: u16,
    answers: u32,
) -> Result<u16, Refusal>
    ensures whole { (k : ℕ) → left < k → right < k → ◌≡◌ {A = Out} (result, pool_of pool.new) (bind (derived k answers left (pool_of pool.old)) (λ d g. bind (derived k answers right g) (λ e i. entered (rejoined form d e) i))) }
    ensures lent { pool.new.items.ghost_name ≡ pool.old.items.ghost_name }
{
    let first = derive_node(pool, left, answers)?;
    let second = derive_node(pool, right, answers)?;
    enter(pool, rejoin(form, first, second))
}

#[inline(never)]
#[cycle(deriving)]
fn derive_star(pool: &mut Pool, node: u16, part: u16, answers: u32) -> Result<u16, Refusal>
    ensures whole { (k : ℕ) → part < k → ◌≡◌ {A = Out} (result, pool_of pool.new) (derived_by (derived k answers) answers node (pool_of pool.old).used (Form.Star part) (pool_of pool.old)) }
    ensures lent { pool.new.items.ghost_name ≡ pool.old.items.ghost_name }
{
    let turn = derive_node(pool, part, answers)?;
    enter_turns(pool, turn, node)
}

#[inline(never)]
#[cycle(deriving)]
fn derive_not(pool: &mut Pool, part: u16, answers: u32) -> Result<u16, Refusal>
    ensures whole { (k : ℕ) → part < k → ◌≡◌ {A = Out} (result, pool_of pool.new) (derived_by (derived k answers) answers 0 (pool_of pool.old).used (Form.Not part) (pool_of pool.old)) }
    ensures lent { pool.new.items.ghost_name ≡ pool.old.items.ghost_name }
{
    let inner = derive_node(pool, part, answers)?;
    enter(pool, Form::Not(inner))
}
