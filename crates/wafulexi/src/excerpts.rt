//! The place at which a text was refused, shown under its line.
ghost use Rattle.std.specs.Prelude.{◌≡◌, IfOk, string_bytes};
ghost use Rattle.wafulexi.specs.Excerpts.{first_line, last_line, excerpt};

use crate::escapes::escaped;
use std::alloc::{AllocError, Global};

/// The line in which a place stands, and a caret under the place. Both go by what prints, so a byte that is escaped
/// takes four columns.
pub fn excerpt(heap: Global, text: &[u8], place: usize) -> Result<String, AllocError>
    ensures { IfOk result (λ s. string_bytes s ≡ excerpt text.now place) }
{
    let (before, after) = text.split_at(place.min(text.len()));
    let before = escaped(heap, last_line(before))?;
    let after = escaped(heap, first_line(after))?;
    let indent = " ".repeat(heap, before.len())?;
    format!(in heap; "{before}{after}\n{indent}^")
}

/// What stands behind the last line feed.
#[tactic(auto, using(crate::proofs::Feeds::last_feed, crate::proofs::Feeds::last_whole))]
fn last_line(bytes: &[u8]) -> &[u8]
    ensures { result.now ≡ last_line bytes.now }
{
    match bytes.iter().rposition(|byte| *byte == b'\n') {
        Some(feed) => &bytes[feed + 1..],
        None => bytes,
    }
}

/// What stands before the first line feed.
#[tactic(auto, using(crate::proofs::Feeds::first_feed, crate::proofs::Feeds::first_whole))]
fn first_line(bytes: &[u8]) -> &[u8]
    ensures { result.now ≡ first_line bytes.now }
{
    match bytes.iter().position(|byte| *byte == b'\n') {
        Some(feed) => &bytes[..feed],
        None => bytes,
    }
}
