//! The derivation of a closed label, read off a finished graph.
//!
//! `lines` has the call. `order` goes through the closed labels in the order in which they were closed, and `node` gives each a line, by what
//! was done at it: `left`, `forced` and `choose` have the lines of clashes and of complements of left sides, of forced steps and of
//! choices, and `sets` compares labels. `draft` keeps the lines in numbers, each label once, and `write` writes them down in concepts.
//! `laws` has the law that no label has both such lines and a model.
#![tactic(auto)]

mod choose;
mod draft;
mod forced;
mod laws;
mod left;
mod lines;
mod node;
mod order;
mod sets;
mod write;

pub use dd_set::NoMemory;
pub use laws::not_both;
pub use lines::lines_of;
