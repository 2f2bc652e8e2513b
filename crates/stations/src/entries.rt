//! The entries with which an order is filled.
ghost use Rattle.std.specs.Prelude.{◌≡◌, true, false, IfOk, MatchOption};
ghost use Rattle.bench.specs.Events.{station_number};
ghost use Rattle.stations.specs.Orders.{accepted, good, no_repeat, numbered, numbers};

use bench::Station;
use refusals::{Question, Refusal};

/// The stations with these numbers, or the refusal of the first number that is too great or an earlier one again.
#[tactic(auto, using(crate::proofs::Filling::next_entry))]
pub(crate) fn stations_of(entries: &[u8; 8]) -> Result<[Station; 8], Refusal>
    ensures all { numbered result ≡ accepted entries.now }
    ensures apart { IfOk result (λ stations. no_repeat (numbers stations) ≡ true) }
{
    let mut stations = Station::ALL;
    for (place, entry) in entries.iter().enumerate() {
        match following(&entries[..place], *entry) {
            Some(station) => stations[place] = station,
            None => return Err(Question::StationOrder.at(place)),
        }
    }
    Ok(stations)
}

/// The station with a number that is none of the earlier ones, if there is one.
fn following(earlier: &[u8], entry: u8) -> Option<Station>
    ensures { MatchOption result (good earlier.now entry ≡ false) (λ s. (good earlier.now entry ≡ true) × (station_number s ≡ entry)) }
{
    if earlier.contains(&entry) {
        return None;
    }
    Station::try_from(entry).ok()
}
