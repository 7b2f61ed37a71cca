//! Requests that are made from a seed, a number of peers and a size: valid input, as large as is wanted, whose answers are known.
//!
//! `lines` makes the list of all requests, `requests` one of them, and `parts` what stands in one.
#![tactic(auto)]

mod lines;
mod parts;
mod requests;

pub use dd_concept::NoMemory;
pub use lines::make;
