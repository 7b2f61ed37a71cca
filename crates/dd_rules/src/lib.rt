//! The concepts of a peer by their numbers, and the rules of its labels.
//!
//! `shape` has a concept's form by numbers and the steps of labels, `props` the propagations by numbers, and `compiled` a
//! peer's closure with its axioms.
//!
//! `labels` has the calls on labels. They stand on `tables`, which keep the concepts by their forms and the axioms by numbers:
//! `clash`, `forced`, `choice`, `step`, `saturate` and `successor` are what the calls do there, `names` the tests of
//! conjunctions of names, and `index` the axioms by the names of their left sides.
#![tactic(auto)]

mod choice;
mod clash;
mod compiled;
mod complement;
mod concepts;
mod forced;
mod index;
mod labels;
mod names;
mod props;
mod row;
mod saturate;
mod shape;
mod source;
mod step;
mod successor;
mod tables;
mod tree;
mod walk;

pub use clash::Clash;
pub use compiled::{CompileErr, Compiled, MAX_CONCEPTS};
pub use props::Props;
pub use shape::{Shape, Step};
pub use tables::AxiomNumbers;
