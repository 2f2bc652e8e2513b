//! The alphabet of bytes, in which text logs are written.
#![tactic(auto)]

mod alphabet;
mod classing;
mod cuts;
mod making;
mod range;

pub use alphabet::ByteAlphabet;
pub use cuts::cut;
pub use range::ByteRange;
