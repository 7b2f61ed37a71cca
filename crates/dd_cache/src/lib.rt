//! Answers that are kept under their question and the versions that they rest on.
//!
//! `key` has the keys and makes the one of a query, `cache` the entries, the one that was used last first.
#![tactic(auto)]

mod cache;
mod key;

pub use cache::{Cache, KeepErr, Kept, MAX_WEIGHT};
pub use dd_concept::NoMemory;
pub use key::{CacheKey, key_of};
