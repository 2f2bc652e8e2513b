//! Entering a form: the rules by which forms that are seen to mean the same come to one node.
ghost use Rattle.std.specs.Prelude.{◌≡◌};
ghost use Rattle.nodes.specs.Entering.{Out, entered};
ghost use Rattle.nodes.specs.Pools.{pool_of};
ghost use Rattle.nodes.specs.Promises.{EnteringMeans};

use crate::form::Form;
use crate::merging::Join;
use crate::node::{ALL, ANY, EMPTY, NONE};
use crate::pool::{Pool, form_at};
use crate::recording::keep;
use refusals::Refusal;

/// The node of a form over nodes of the pool.
pub fn enter(pool: &mut Pool, form: Form) -> Result<u16, Refusal>
    ensures whole { ◌≡◌ {A = Out} (result, pool_of pool.new) (entered form (pool_of pool.old)) }
    ensures means { EnteringMeans form (pool_of pool.old) (result, pool_of pool.new) }
    ensures lent { pool.new.items.ghost_name ≡ pool.old.items.ghost_name }
{
    enter_form(pool, form)
}

/// The steps of `enter`; that one says what they come to.
fn enter_form(pool: &mut Pool, form: Form) -> Result<u16, Refusal>
    ensures whole { ◌≡◌ {A = Out} (result, pool_of pool.new) (entered form (pool_of pool.old)) }
    ensures lent { pool.new.items.ghost_name ≡ pool.old.items.ghost_name }
{
    match form {
        Form::None => Ok(NONE),
        Form::Empty => Ok(EMPTY),
        Form::Any => Ok(ANY),
        Form::Atom(_) => keep(pool, form),
        Form::Sequence(left, right) => enter_sequence(pool, left, right),
        Form::Or(left, right) => enter_or(pool, left, right),
        Form::And(left, right) => enter_and(pool, left, right),
        Form::Star(part) => enter_star(pool, part),
        Form::Not(part) => enter_not(pool, part),
    }
}

fn enter_sequence(pool: &mut Pool, left: u16, right: u16) -> Result<u16, Refusal>
    ensures whole { ◌≡◌ {A = Out} (result, pool_of pool.new) (entered (Form.Sequence left right) (pool_of pool.old)) }
    ensures lent { pool.new.items.ghost_name ≡ pool.old.items.ghost_name }
{
    match (left, right) {
        (NONE, _) | (_, NONE) => Ok(NONE),
        (EMPTY, other) | (other, EMPTY) => Ok(other),
        _ => keep(pool, Form::Sequence(left, right)),
    }
}

fn enter_or(pool: &mut Pool, left: u16, right: u16) -> Result<u16, Refusal>
    ensures whole { ◌≡◌ {A = Out} (result, pool_of pool.new) (entered (Form.Or left right) (pool_of pool.old)) }
    ensures lent { pool.new.items.ghost_name ≡ pool.old.items.ghost_name }
{
    match (left, right) {
        (NONE, other) | (other, NONE) => Ok(other),
        (ALL, _) | (_, ALL) => Ok(ALL),
        _ => Join::Or.merge(pool, left, right),
    }
}

fn enter_and(pool: &mut Pool, left: u16, right: u16) -> Result<u16, Refusal>
    ensures whole { ◌≡◌ {A = Out} (result, pool_of pool.new) (entered (Form.And left right) (pool_of pool.old)) }
    ensures lent { pool.new.items.ghost_name ≡ pool.old.items.ghost_name }
{
    match (left, right) {
        (ALL, other) | (other, ALL) => Ok(other),
        (NONE, _) | (_, NONE) => Ok(NONE),
        _ => Join::And.merge(pool, left, right),
    }
}

fn enter_star(pool: &mut Pool, part: u16) -> Result<u16, Refusal>
    ensures whole { ◌≡◌ {A = Out} (result, pool_of pool.new) (entered (Form.Star part) (pool_of pool.old)) }
    ensures lent { pool.new.items.ghost_name ≡ pool.old.items.ghost_name }
{
    match part {
        NONE | EMPTY => Ok(EMPTY),
        _ if matches!(form_at(pool, part), Form::Star(_)) => Ok(part),
        _ => keep(pool, Form::Star(part)),
    }
}

fn enter_not(pool: &mut Pool, part: u16) -> Result<u16, Refusal>
    ensures whole { ◌≡◌ {A = Out} (result, pool_of pool.new) (entered (Form.Not part) (pool_of pool.old)) }
    ensures lent { pool.new.items.ghost_name ≡ pool.old.items.ghost_name }
{
    match form_at(pool, part) {
        Form::Not(inner) => Ok(inner),
        _ => keep(pool, Form::Not(part)),
    }
}
