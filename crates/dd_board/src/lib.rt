//! The board: sessions, whose tasks are taken, answered and given back, one event at a time.
//!
//! A session answers a job. It has tasks, each of which asks whether some element of a peer can have a label. A verdict that
//! closes a task becomes lines and a propagation into another peer; one that opens it raises further tasks. `event` has the states
//! of tasks, the events and the outcomes, `ticket` the right to answer a task, `session` what is kept of a session, `board` the
//! calls, and `laws` laws of legal sessions.
#![tactic(auto)]

mod beginning;
mod board;
mod closing;
mod event;
mod flags;
mod giving;
mod holding;
mod laws;
mod opening;
mod posting;
mod session;
mod standing;
mod taking;
mod ticket;

pub use board::Board;
pub use dd_concept::NoMemory;
pub use event::{Event, Outcome, TaskState};
pub use laws::{
    enough_is_never_spent, enough_runs_are_never_spent, outcome_stays, posts_are_bounded,
    posts_are_few, seen_grows,
};
pub use ticket::{Posted, Take, Ticket};
