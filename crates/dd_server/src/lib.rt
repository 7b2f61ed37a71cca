//! Sessions: lines are read in windows, and the replies of a window are given when it ends.
//!
//! `serve` has the call for a whole session, which ends with a `status`; `turn` takes one line, and writes the replies of the
//! window that it ends. `server` is what a session knows between lines: where its reading stands, and the cache. A window ends in
//! two halves: in `look` its asks are looked up, and those that are not found open sessions on one board; in `conclude` each is
//! answered, replied to and perhaps kept, as `reply` writes it. What a session promises is `specs/Headline.antt`, how a window ends
//! `specs/Finish.antt`; `laws` has what follows for the verdicts.
#![tactic(auto)]

mod conclude;
mod laws;
mod look;
mod reply;
mod serve;
mod server;
mod status;
mod turn;

pub use dd_read::{Accepted, Options};
pub use laws::{relevant_versions, verdicts_hold};
pub use serve::serve_alone;
pub use server::Server;
pub use status::Status;
