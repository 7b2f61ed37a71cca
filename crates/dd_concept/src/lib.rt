//! Concepts and axioms of the description logic ALC, as trees over numbered names and roles.
//!
//! `concept` has the types, `measure` how large a concept is, `equal` comparing and copying, `normal` the negation normal
//! form, `items` the lists that contracts see as lists, and `label` reads a list of concepts as a set.
#![tactic(auto)]

mod concept;
mod construct;
mod equal;
mod items;
mod label;
mod laws;
mod measure;
mod names;
mod normal;
mod shared;

pub use concept::{Axiom, Concept};
pub use construct::{conjunction, disjunction, existential, negation, universal};
pub use equal::{copy, copy_axiom, same, same_axiom, same_axioms};
pub use items::Items;
pub use label::{are_within, contains};
pub use laws::normal_forms_stay;
pub use measure::{depth, nodes};
pub use names::{names_in, roles_in};
pub use normal::{nnf, nnf_not};
pub use shared::Shared;
pub use std::alloc::AllocError as NoMemory;
