//! Worlds: one local interpretation per peer with links between them, and whether one is a countermodel of a query.
//!
//! `world` has the types, `elements` reads what a peer's elements have, `shape` tests that a world is one, `included` and
//! `rules` what its peers' axioms and bridge rules ask of it, `check` names the first fault, and `laws` has the law that a
//! countermodel refutes its query. What a world is, what it satisfies and what follows is `specs/World.antt`.
#![tactic(auto)]

mod check;
mod elements;
mod included;
mod judge;
mod kind;
mod laws;
mod mention;
mod rules;
mod shape;
mod sketch;
mod world;

pub use check::check_world;
pub use judge::judge_world;
pub use laws::counters_refute;
pub use world::{World, WorldFault};
