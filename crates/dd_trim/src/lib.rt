//! Derivations without the lines that they do not need.
//!
//! `needed` marks the lines that the last one needs, `places` gives them numbers, `copies` copies them under these, and `whole` is
//! these three in one.
#![tactic(auto)]

mod copies;
mod needed;
mod places;
mod whole;

pub use dd_concept::NoMemory;
pub use whole::trim;
