//! Verdicts on goals: whether an element of a peer can have all concepts of a goal, by the local tableau.
//!
//! `compile` makes a peer's closure for a job, and `closures` tests that those of the relevant peers are not too large. `verdict`
//! decides one goal: `numbers` and `props` give the numbers of what is asked, and `spent` keeps a run that used up its
//! expansions. `alone` answers the query of a peer that is alone, and `laws` has what a board of goals needs: that all is written with
//! what is given, and which goals may be asked.
#![tactic(auto)]

mod alone;
mod closures;
mod compile;
mod laws;
mod numbers;
mod props;
mod spent;
mod verdict;

pub use alone::answer_alone;
pub use closures::{ClosureErr, check_closures};
pub use dd_set::NoMemory;
pub use laws::{closures_come_from_given, goals_of_keys_are_fit};
pub use verdict::verdict_of;
