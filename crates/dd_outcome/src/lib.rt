//! From a session that is settled to what is answered to its job: a derivation, a countermodel, or why the search ended without
//! one.
#![tactic(auto)]

mod outcome;
mod runs;

pub use dd_concept::NoMemory;
pub use outcome::answer_of;
