//! Local interpretations: finite domains of any size, the empty one among them, and what holds at their elements.
//!
//! `interp` has the type, `shape` whether it is one, `meaning` decides what a concept means at an element, `union` makes the
//! disjoint union, and `laws` has the law of the negation normal form. What a concept means is `specs/Meaning.antt`.
#![tactic(auto)]

mod chart;
mod fill;
mod groups;
mod interp;
mod laws;
mod meaning;
mod places;
mod seen;
mod shape;
mod union;
mod valued;

pub use chart::Chart;
pub use dd_concept::NoMemory;
pub use interp::Interp;
pub use laws::normal_keeps_meaning;
pub use meaning::holds;
pub use places::{place_of, rising};
pub use shape::is_shaped;
pub use union::append;
pub use valued::extension;
