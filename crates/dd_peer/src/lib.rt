//! What each peer keeps: its axioms and its bridge rules, the versions that a pin names, and a query about one peer.
//!
//! `version` has the types and counts rules by the peer that they come from, `check` says when a version is refused,
//! `equal` compares, and `relevant` finds the peers that an answer about a peer can depend on.
#![tactic(auto)]

mod check;
mod equal;
mod relevant;
mod version;

pub use check::{MAX_AXIOMS, MAX_RULES, PeerErr};
pub use dd_concept::{NoMemory, Shared};
pub use equal::{same_pinned, same_query, same_rule, same_version};
pub use relevant::relevant_of;
pub use version::{PeerVersion, Pin, Pinned, Query, Rule};
