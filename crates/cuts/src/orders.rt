//! Orders of stations.
use crate::telling::answered;
use bench::Station;
use stations::StationOrder;
use std::alloc::Global;

/// What every order holds before it is filled, so that one left as it was can be told.
const EARLIER: [u8; 8] = [1, 2, 3, 4, 5, 6, 7, 0];

/// Fills an order, and tells what it holds.
pub fn of_filling(heap: Global, words: &str) -> anyhow::Result<String> {
    let mut order = StationOrder::new();
    let mut answer = Ok(());
    if words != "new" {
        order.fill(&EARLIER)?;
        answer = order.fill(&entries_of(words)?);
    }
    let mut line = answered(heap, answer)?;
    line.push(' ')?;
    for station in Station::ALL {
        write!(line, "{}", order.station(station).number())?;
    }
    Ok(line)
}

/// The order that eight digits name.
pub fn order_of(digits: &str) -> anyhow::Result<StationOrder> {
    let mut entries = [0; 8];
    for (entry, digit) in entries.iter_mut().zip(digits.bytes()) {
        *entry = digit.wrapping_sub(b'0');
    }
    let mut order = StationOrder::new();
    order.fill(&entries)?;
    Ok(order)
}

/// Numbers with commas between them.
fn entries_of(words: &str) -> anyhow::Result<[u8; 8]> {
    let mut entries = [0; 8];
    for (entry, word) in entries.iter_mut().zip(words.split(',')) {
        *entry = word.parse::<u8>()?;
    }
    Ok(entries)
}
