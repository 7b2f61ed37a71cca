//! Whether lines derive a query. No memory is taken, so a derivation that was read can always be judged.
//!
//! `check` has the call and what it answers, `reasons` and `bridge` the reasons of lines, `labels` labels with a concept more,
//! `normal` compares a concept with the normal form of another, `parts` takes a concept's form, `size` bounds the concepts of
//! cuts, and `laws` has the law that what lines derive holds in every world.
#![tactic(auto)]

mod bridge;
mod check;
mod labels;
mod laws;
mod normal;
mod parts;
mod reasons;
mod size;

pub use check::{LineFault, check_lines};
pub use laws::derivations_are_sound;
