//! The derivation of a session whose root is proved: the root's line and what it needs.
#![tactic(auto)]

mod derivation;

pub use dd_concept::NoMemory;
pub use derivation::derivation_of;
