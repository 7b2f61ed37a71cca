//! The countermodel of a quiet session, put together from the models that its wanted open tasks were opened with.
#![tactic(auto)]

mod laws;
mod links;
mod place;
mod read;
mod rows;
mod world;

pub use dd_concept::NoMemory;
pub use laws::quiet_has_countermodel;
pub use world::world_of;
