//! The pool: a book of nodes over the caller's slice, read totally and grown at its end.
ghost use Rattle.std.specs.Prelude.{◌≡◌, ◌≤◌, length, take};
ghost use Rattle.nodes.specs.Entering.{Out, interned};
ghost use Rattle.nodes.specs.Pools.{pool_of};
ghost use Rattle.numbering.specs.Numbering.{Out as Numbered, pages, numbered};
ghost use Rattle.nodes.specs.Reading.{at, form_at, nullable_at};
ghost use Rattle.nodes.specs.Sameness.{derived_eq};

use crate::form::Form;
use crate::node::Node;
use numbering::Book;
use refusals::{Question, Refusal};

/// The most nodes of a pool: places of the slice past these are left alone.
pub const MOST_NODES: usize = 4096;

/// Nodes by their numbers, the caller's memory with a count.
pub type Pool<'a> = Book<'a, Node>;

/// The record of a node; node 0, and whatever is not there, is none.
pub(crate) fn node_at(pool: &Pool, node: u16) -> Node
    ensures { result ≡ at (pool_of pool.now).used node }
{
    match usize::from(node) {
        place @ 1..MOST_NODES => pool.get(place).unwrap_or_default(),
        _ => Node::default(),
    }
}

/// The form that a node is read as.
pub fn form_at(pool: &Pool, node: u16) -> Form
    ensures { result ≡ form_at (pool_of pool.now).used node }
{
    node_at(pool, node).form(node)
}

/// Whether the empty list is in the language of a node.
pub fn nullable_at(pool: &Pool, node: u16) -> bool
    ensures { result ≡ nullable_at (pool_of pool.now).used node }
{
    node_at(pool, node).nullable
}

/// The number of a record: that of the first equal one, else the next place.
pub(crate) fn intern(pool: &mut Pool, node: Node) -> Result<u16, Refusal>
    ensures whole { ◌≡◌ {A = Out} (result, pool_of pool.new) (interned (pool_of pool.old) node) }
    ensures lent { pool.new.items.ghost_name ≡ pool.old.items.ghost_name }
{
    let size = pool.items.len().min(MOST_NODES);
    let (found, count) = number_in(&mut pool.items[..size], pool.count, node);
    pool.count = count;
    match found {
        Some(number) => Ok(number as u16),
        None => Err(Question::NodeRoom.at(size)),
    }
}

/// Numbers a record among the nodes of a slice, and gives the count afterwards.
fn number_in(nodes: &mut [Node], count: usize, node: Node) -> (Option<usize>, usize)
    ensures { ◌≡◌ {A = Numbered Node} (result.0, pages nodes.new result.1) (numbered derived_eq (pages nodes.old count) node) }
{
    let mut book = Book {
        items: nodes,
        count,
    };
    let found = book.number(node);
    (found, book.count)
}
