//! The versions of all peers as they were put, and the pins that name one version of each peer.
//!
//! `registry` keeps the history of accepted puts and finds what a pin names, and `laws` has the law that later puts change
//! nothing that a pin names. Versions are shared: none is copied.
#![tactic(auto)]

mod laws;
mod registry;

pub use dd_concept::NoMemory;
pub use dd_peer::{PeerErr, PeerVersion, Pin, Pinned, Shared};
pub use laws::pins_stay;
pub use registry::{Accepted, MAX_PUTS, PutErr, Registry};
