//! Where the answers of atoms change.
ghost use Rattle.std.specs.Prelude.{◌≡◌};
ghost use Rattle.sweeps.specs.Changes.{nearer, change_by, next_change};

use bands::EventAtom;
use bench::{Code, Station};

/// How many pressures an event can have.
pub(crate) const PRESSURES: u32 = 65536;

/// The first pressure above `pressure` at which an atom may answer otherwise to events of this code and station, or
/// the count of pressures if there is none.
#[tactic(auto, unfolding(crate::specs::Changes::next_change))]
pub(crate) fn next_change(atoms: &[EventAtom], code: Code, station: Station, pressure: u32) -> u32
    ensures { result ≡ next_change code station pressure atoms.now }
{
    atoms.iter().fold(PRESSURES, |next, atom| {
        change_by(*atom, code, station, pressure, next)
    })
}

/// The nearer of `next` and the first such pressure of one atom.
fn change_by(atom: EventAtom, code: Code, station: Station, pressure: u32, next: u32) -> u32
    ensures { result ≡ change_by code station pressure next atom }
{
    if !atom.stands_at(code, station) {
        return next;
    }
    let behind = nearer(pressure, u32::from(atom.last) + 1, next);
    nearer(pressure, u32::from(atom.first), behind)
}

/// The nearer of two pressures, of which `stop` counts only if it is above.
fn nearer(pressure: u32, stop: u32, next: u32) -> u32
    ensures { result ≡ nearer pressure stop next }
{
    if pressure < stop && stop < next {
        stop
    } else {
        next
    }
}
