//! Labels by number, each once: their words lie in an arena and are found by their hash.
//!
//! `table` has the table, and `view` a label of it as the arena holds it. What a table is seen as is `specs/Labels.antt`.
#![tactic(auto)]

mod table;
mod view;

pub use dd_set::NoMemory;
pub use table::Table;
pub use view::LabelView;
