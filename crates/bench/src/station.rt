//! Where a bench can report it.
ghost use Rattle.std.specs.Prelude.{◌≡◌, Some};
ghost use Rattle.bench.specs.Events.{station_number, NamesStation, unknown_station};

use std::error::Error;
use std::fmt;

/// Where on a bench.
#[derive(Clone, Copy, PartialEq, Eq, Debug, Default)]
pub enum Station {
    #[default]
    S0 = 0,
    S1 = 1,
    S2 = 2,
    S3 = 3,
    S4 = 4,
    S5 = 5,
    S6 = 6,
    S7 = 7,
}

impl Station {
    /// All stations, by number.
    pub const ALL: [Station; 8] = [
        Station::S0,
        Station::S1,
        Station::S2,
        Station::S3,
        Station::S4,
        Station::S5,
        Station::S6,
        Station::S7,
    ];

    /// The number of the station.
    pub fn number(self) -> u8
        ensures { result ≡ station_number self }
    {
        self as u8
    }
}

impl TryFrom<u8> for Station {
    type Error = UnknownStation;

    ghost try_from_gives = { NamesStation };

    fn try_from(number: u8) -> Result<Self, UnknownStation> {
        match number {
            0 => Ok(Station::S0),
            1 => Ok(Station::S1),
            2 => Ok(Station::S2),
            3 => Ok(Station::S3),
            4 => Ok(Station::S4),
            5 => Ok(Station::S5),
            6 => Ok(Station::S6),
            7 => Ok(Station::S7),
            _ => Err(UnknownStation(number)),
        }
    }
}

/// A number that no station has.
#[derive(Clone, Copy, PartialEq, Eq, Debug)]
pub struct UnknownStation(pub u8);

impl fmt::Display for UnknownStation {
    ghost output = { λ e. Some (unknown_station e) };

    fn fmt<W: fmt::Write>(&self, f: &mut fmt::Formatter<W>) -> fmt::Result {
        write!(f, "no station has the number {}", self.0)
    }
}

impl Error for UnknownStation {}
