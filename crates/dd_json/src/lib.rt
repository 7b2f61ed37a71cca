//! Parts of JSON values: the members of an object by the kinds of their values, each with its definition over the data.
//!
//! `shape` says what a reader of a value answers, and `members` reads the members of an object.
#![tactic(auto)]

mod members;
mod shape;

pub use dd_concept::NoMemory;
pub use members::{
    count_of, has, indexes, list, listed, maybe_number, number_in, text, text_in, texts,
    wants_members,
};
pub use shape::{ShapeErr, Text};
