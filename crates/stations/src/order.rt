//! Orders of stations.
ghost use Rattle.std.specs.Prelude.{◌≡◌, ◌==◌, true, map};
ghost use Rattle.bench.specs.declared.station.Station.{Station};
ghost use Rattle.bench.specs.Events.{station_number};
ghost use Rattle.stations.specs.Filling.{Means};
ghost use Rattle.stations.specs.Orders.{Out, Undone, asked, asking_for, back, filled, no_repeat, numbers, straight};

use crate::entries::stations_of;
use bench::Station;
use refusals::Refusal;

/// For each station the one that is asked about in its place. No station stands twice, so each is asked about in place
/// of exactly one.
#[derive(Clone, Copy)]
pub struct StationOrder {
    stations: [Station; 8],
    ghost apart: { no_repeat (map station_number stations) ≡ true },
    ghost undone: { Undone stations },
}

impl StationOrder {
    /// The order in which each station stands in its own place.
    #[tactic(auto, using(crate::proofs::Undoing::itself))]
    pub fn new() -> StationOrder
        ensures straight { result.stations ≡ straight }
        ensures itself { (s : Station) → asked result.stations s ≡ s }
    {
        StationOrder::of(Station::ALL)
    }

    /// The order that has these stations, none of them twice.
    fn of(stations: [Station; 8]) -> StationOrder
        requires { no_repeat (numbers stations) ≡ true }
        ensures { result.stations ≡ stations }
    {
        StationOrder { stations }
    }

    /// Takes a station number for each station in turn, each number once. Where that does not hold, the order stays as
    /// it was, and the refusal tells the place of the first entry that is too great or an earlier one again.
    pub fn fill(&mut self, entries: &[u8; 8]) -> Result<(), Refusal>
        ensures whole { ◌≡◌ {A = Out} (result, numbers self.new.stations) (filled (numbers self.old.stations) entries.now) }
        ensures means { Means entries.now result }
    {
        self.enter(entries)
    }

    /// The steps of `fill`; that one says what they come to.
    fn enter(&mut self, entries: &[u8; 8]) -> Result<(), Refusal>
        ensures { ◌≡◌ {A = Out} (result, numbers self.new.stations) (filled (numbers self.old.stations) entries.now) }
    {
        *self = StationOrder::of(stations_of(entries)?);
        Ok(())
    }

    /// The station that is asked about in place of a station.
    #[tactic(auto, using(crate::proofs::Undoing::back_and_forth))]
    pub fn station(&self, station: Station) -> Station
        ensures asked { result ≡ asked self.now.stations station }
        ensures undone { back self.now.stations result ≡ station }
    {
        self.entry(station)
    }

    /// The order's entry for a station.
    fn entry(&self, station: Station) -> Station
        ensures { result ≡ asked self.now.stations station }
    {
        self.stations[station as usize]
    }

    /// The station in whose place a station is asked about.
    #[tactic(auto, using(crate::proofs::Undoing::some_asks, crate::proofs::Undoing::forth_and_back))]
    pub fn back(&self, station: Station) -> Station
        ensures back { result ≡ back self.now.stations station }
        ensures undone { asked self.now.stations result ≡ station }
    {
        self.asking_for(&Station::ALL, station).unwrap()
    }

    /// The first of some stations in whose place a station is asked about, if there is one.
    fn asking_for(&self, stations: &[Station], station: Station) -> Option<Station>
        ensures { result ≡ asking_for self.now.stations stations.now station }
    {
        stations
            .iter()
            .copied()
            .find(|from| self.asks(*from, station))
    }

    /// Whether a station is asked about in place of another.
    fn asks(&self, from: Station, station: Station) -> bool
        ensures { result ≡ (station_number (asked self.now.stations from) == station_number station) }
    {
        self.entry(from) == station
    }
}
