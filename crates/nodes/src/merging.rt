//! Merging the members of two or nodes, or of two and nodes, in the order of their numbers and each once.
ghost use Rattle.std.specs.Prelude.{◌≡◌};
ghost use Rattle.nodes.specs.Entering.{Out, joined, joints, merge, chained, merged};
ghost use Rattle.nodes.specs.Merging.{members_of, split_of, first_of, picked_of, is_last};
ghost use Rattle.nodes.specs.Pools.{pool_of};

use crate::form::Form;
use crate::pool::{Pool, form_at};
use crate::recording::keep;
use refusals::Refusal;
use std::cmp::Ordering;

/// The two kinds whose members are merged.
#[derive(Clone, Copy)]
pub(crate) enum Join {
    Or,
    And,
}

/// The members of a node: all of them, the first, and the rest. Members go by the node whose members they are.
#[derive(Clone, Copy)]
pub(crate) struct Members {
    pub all: u16,
    pub first: u16,
    pub rest: Option<u16>,
}

/// The next of the merged members, and what is left of those of either side.
#[derive(Clone, Copy)]
pub(crate) struct Next {
    pub member: u16,
    pub left: Option<u16>,
    pub right: Option<u16>,
}

impl Next {
    fn is_last(self) -> bool
        ensures { result ≡ is_last self }
    {
        self.left.is_none() && self.right.is_none()
    }
}

impl Join {
    /// The node whose members are those of two nodes.
    pub(crate) fn merge(self, pool: &mut Pool, left: u16, right: u16) -> Result<u16, Refusal>
        ensures whole { ◌≡◌ {A = Out} (result, pool_of pool.new) (merged self left right (pool_of pool.old)) }
        ensures lent { pool.new.items.ghost_name ≡ pool.old.items.ghost_name }
    {
        self.merge_ahead(pool, Some(left), Some(right))
    }

    /// The members are met on the way down, before anything is entered; the nodes are entered from the last member on.
    fn merge_ahead(
        self,
        pool: &mut Pool,
        left: Option<u16>,
        right: Option<u16>,
    ) -> Result<u16, Refusal>
        ensures whole { ◌≡◌ {A = Out} (result, pool_of pool.new) (chained self (merge (members_of self (pool_of pool.old).used left) (members_of self (pool_of pool.old).used right)) (pool_of pool.old)) }
        ensures lent { pool.new.items.ghost_name ≡ pool.old.items.ghost_name }
    {
        let next = self.pick(pool, left, right);
        if next.is_last() {
            return Ok(next.member);
        }
        let rest = self.merge_ahead(pool, next.left, next.right)?;
        keep(pool, self.form(next.member, rest))
    }

    fn pick(self, pool: &Pool, left: Option<u16>, right: Option<u16>) -> Next
        ensures { result ≡ picked_of self (pool_of pool.now).used left right }
    {
        match (left, right) {
            // never met: merging ends at the last member
            (None, None) => Next {
                member: 0,
                left: None,
                right: None,
            },
            (Some(node), None) => {
                let members = self.split(pool, node);
                Next {
                    member: members.first,
                    left: members.rest,
                    right: None,
                }
            }
            (None, Some(node)) => {
                let members = self.split(pool, node);
                Next {
                    member: members.first,
                    left: None,
                    right: members.rest,
                }
            }
            (Some(l), Some(r)) => first_of(self.split(pool, l), self.split(pool, r)),
        }
    }

    /// The members of a node, the first apart from the rest.
    fn split(self, pool: &Pool, node: u16) -> Members
        ensures { result ≡ split_of self (pool_of pool.now).used node }
    {
        let parts = self.parts(form_at(pool, node));
        Members {
            all: node,
            first: parts.map_or(node, |(first, _)| first),
            rest: parts.map(|(_, rest)| rest),
        }
    }

    fn form(self, left: u16, right: u16) -> Form
        ensures { result ≡ joined self left right }
    {
        match self {
            Join::Or => Form::Or(left, right),
            Join::And => Form::And(left, right),
        }
    }

    /// The parts of a form of the joined kind.
    fn parts(self, form: Form) -> Option<(u16, u16)>
        ensures { result ≡ joints self form }
    {
        match (self, form) {
            (Join::Or, Form::Or(left, right)) => Some((left, right)),
            (Join::And, Form::And(left, right)) => Some((left, right)),
            _ => None,
        }
    }
}

/// The smaller of two first members, and equal ones together.
fn first_of(left: Members, right: Members) -> Next
    ensures { result ≡ first_of left right }
{
    match left.first.cmp(&right.first) {
        Ordering::Less => Next {
            member: left.first,
            left: left.rest,
            right: Some(right.all),
        },
        Ordering::Equal => Next {
            member: left.first,
            left: left.rest,
            right: right.rest,
        },
        Ordering::Greater => Next {
            member: right.first,
            left: Some(left.all),
            right: right.rest,
        },
    }
}
