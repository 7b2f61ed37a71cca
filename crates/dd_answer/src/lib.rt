//! Answers to a job, with their evidence: a derivation, a countermodel, or why the search ended without one.
//!
//! `answer` has the type, `copies` makes an equal one, `measure` tells how much an answer holds.
#![tactic(auto)]

mod answer;
mod copies;
mod measure;

pub use answer::Answer;
pub use copies::copy_answer;
pub use dd_concept::NoMemory;
pub use measure::weight;
