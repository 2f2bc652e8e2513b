//! The options of `classes`.
ghost use Rattle.std.specs.Prelude.{◌≡◌, Some};
ghost use Rattle.std.specs.Char.{is_ascii_digit};
ghost use Rattle.std.specs.List.{list_all};
ghost use Rattle.std.specs.Vec.Iter.{into_iter_items};
ghost use Rattle.wafulexi.specs.Options.{asked, cutting, lettered, order_in, ordered, taken_with};

use crate::words::{Misuse, Source};
use std::env::Args;

/// What `classes` is asked for.
#[derive(Drop)]
pub struct Cutting {
    pub letters: Letters,
    pub source: Source,
}

/// The letters of which a rule speaks.
#[derive(Clone, Copy)]
pub enum Letters {
    Bytes,
    FoldedBytes,
    Events,
    /// Events of a bench whose hoses are crossed, with a station number for each station: the one that is asked about.
    CrossedEvents([u8; 8]),
}

/// What the words said so far.
#[derive(Drop)]
struct Options {
    events: bool,
    fold: bool,
    stations: Option<[u8; 8]>,
    source: Option<Source>,
}

/// What the words behind `classes` ask for. Options and source stand in any order, each once at most.
pub fn cutting_in(mut words: Args) -> Result<Cutting, Misuse>
    ensures { result ≡ cutting (into_iter_items words) }
{
    let mut options = Options {
        events: false,
        fold: false,
        stations: None,
        source: None,
    };
    while let Some(word) = words.next() {
        options = if word.as_str() == "--stations" {
            options.ordered(word, words.next())?
        } else {
            options.taken_with(word)?
        };
    }
    options.asked()
}

impl Options {
    /// With the order of stations that stands behind the option.
    fn ordered(self, option: String, digits: Option<String>) -> Result<Options, Misuse>
        ensures { result ≡ ordered self option digits }
    {
        if self.stations.is_some() {
            return Err(Misuse::Twice(option));
        }
        let Some(digits) = digits else {
            return Err(Misuse::Unfinished(option));
        };
        match order_in(digits.as_str()) {
            Some(order) => Ok(Options {
                stations: Some(order),
                ..self
            }),
            None => Err(Misuse::NotEightDigits(digits)),
        }
    }

    /// With any other option, or the source.
    fn taken_with(self, word: String) -> Result<Options, Misuse>
        ensures { result ≡ taken_with self word }
    {
        match word.as_str() {
            "--events" if self.events => Err(Misuse::Twice(word)),
            "--events" => Ok(Options {
                events: true,
                ..self
            }),
            "--fold" if self.fold => Err(Misuse::Twice(word)),
            "--fold" => Ok(Options { fold: true, ..self }),
            _ if self.source.is_some() => Err(Misuse::OneTooMany(word)),
            _ => Ok(Options {
                source: Some(Source::try_from(word)?),
                ..self
            }),
        }
    }

    fn asked(self) -> Result<Cutting, Misuse>
        ensures { result ≡ asked self }
    {
        Ok(Cutting {
            letters: self.letters()?,
            source: self.source.unwrap_or(Source::Input),
        })
    }

    fn letters(&self) -> Result<Letters, Misuse>
        ensures { result ≡ lettered self.now.events self.now.fold self.now.stations }
    {
        match (self.events, self.fold, self.stations) {
            (false, false, None) => Ok(Letters::Bytes),
            (false, true, None) => Ok(Letters::FoldedBytes),
            (true, false, None) => Ok(Letters::Events),
            (true, false, Some(order)) => Ok(Letters::CrossedEvents(order)),
            (true, true, _) => Err(Misuse::FoldOfEvents),
            (false, _, Some(_)) => Err(Misuse::StationsOfBytes),
        }
    }
}

/// The order of stations that eight digits write.
fn order_in(word: &str) -> Option<[u8; 8]>
    ensures { result ≡ order_in word.now }
{
    let digits: &[u8; 8] = word.as_bytes().try_into().ok()?;
    if !all_digits(digits) {
        return None;
    }
    Some(digits.map(|digit| digit.saturating_sub(b'0')))
}

fn all_digits(bytes: &[u8]) -> bool
    ensures { result ≡ list_all is_ascii_digit bytes.now }
{
    bytes.iter().all(|byte| byte.is_ascii_digit())
}
