//! Settling a board: goals are taken, run and answered until no session is going.
//!
//! `running` answers one ticket, and `settle` does so for all that a board gives, on one thread.
#![tactic(auto)]

mod running;
mod settle;

pub use dd_concept::NoMemory;
pub use running::run;
pub use settle::settle_alone;
