//! Texts of concepts and axioms, and the names and roles that they number.
//!
//! `names` tells which texts are names, and `symbols` numbers those that have occurred. A text is read in two passes:
//! `grammar` passes over the bytes of one concept with a stack of its own and notes its nodes, `parts` tells a whole text
//! from the place where it leaves the grammar, and `build` makes the concept from the nodes; `read` joins them, with the
//! limits between the passes. `print` writes the one text of a concept or an axiom, and `laws` says that the two are inverse.
#![tactic(auto)]

mod build;
mod grammar;
mod laws;
mod names;
mod parts;
mod print;
mod read;
mod symbols;

pub use dd_concept::NoMemory;
pub use laws::{limits_are_defined, printed_texts_read, read_texts_print, texts_are_unique};
pub use names::is_name;
pub use print::{print_axiom, print_concept};
pub use read::{CERT, Limits, REQUEST, TextErr, read_axiom, read_concept};
pub use symbols::{Mark, NameErr, Symbols};
