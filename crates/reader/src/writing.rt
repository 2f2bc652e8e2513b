//! What is written before nodes are entered.
ghost use Rattle.std.specs.Prelude.{◌≡◌, ◌≤◌, length};
ghost use Rattle.nodes.specs.Pools.{pool_of};
ghost use Rattle.reader.specs.Reading.{filled, first_held};

use nodes::{FIRST_NODES, Node, Pool};
use surveys::Entry;

/// Begins a pool: the first nodes are written, and no others are in use.
pub(crate) fn begin<'a>(items: &'a mut [Node]) -> Pool<'a>
    requires { 4 ≤ length items.old }
    ensures begun { pool_of result ≡ first_held items.old }
    ensures lent { result.items.ghost_name ≡ items.entry.ghost_name }
{
    items[..FIRST_NODES.len()].copy_from_slice(&FIRST_NODES);
    Pool {
        items,
        count: FIRST_NODES.len(),
    }
}

/// Writes the entry of each atom into the place of its number.
pub(crate) fn write_atoms(atoms: &[Entry], places: &mut [Entry])
    requires { length atoms.now ≤ length places.old }
    ensures { places.new ≡ filled atoms.now places.old }
{
    places[..atoms.len()].copy_from_slice(atoms);
}
