//! Models of open labels, and why closed ones have none.
//!
//! `model` makes the model that an open label has, element by element: `resolve` goes from an open label to the complete one that
//! it leads to, `elements` keeps the positions of these, `names` and `roles` write down what their labels ask for. `laws` has the law
//! on closed labels.
#![tactic(auto)]

mod elements;
mod laws;
mod model;
mod names;
mod resolve;
mod roles;

pub use dd_set::NoMemory;
pub use laws::closed_has_no_model;
pub use model::interp_of;
