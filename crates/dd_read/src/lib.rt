//! The reading half of a session: each line of a window is read, tested and obeyed, and what it leaves is kept until the window ends.
//!
//! `reading` has the state and takes the lines, under `options`; `accepted` says when a window is due, and `kept` what it
//! keeps. `ask`, `judge` and `refusal` serve asks, checks and refused requests, and `laws` has the law that the tests of a
//! line find one thing. What reading a line means is `specs/Read.antt`, and its tests are `specs/Tests.antt`.
#![tactic(auto)]

mod accepted;
mod ask;
mod judge;
mod kept;
mod laws;
mod obeyed;
mod options;
mod reading;
mod refusal;

pub use accepted::Accepted;
pub use kept::{Ask, Kept};
pub use laws::tests_decide;
pub use options::Options;
pub use reading::Reading;
