//! Request lines and replies: bytes to requests, each refusal with its code, and replies to bytes.
//!
//! `line` reads a line and `form` the form of its value; `names` keeps the peers' names, and `lookup` looks up a form's names
//! and reads its `texts`, to the `request`. `code` has the codes of refusals, `reply` the replies, and `print` writes them.
#![tactic(auto)]

mod code;
mod form;
mod line;
mod lookup;
mod names;
mod print;
mod reply;
mod request;
mod texts;

pub use code::{
    BAD_BUDGET, BAD_CONCEPT, BAD_JSON, BAD_PEERS, BAD_PIN, BAD_SHAPE, CLOSURE_FULL, CONCEPT_LIMIT,
    LINE_TOO_LONG, NO_PEERS, PEERS_TWICE, SAME_PEER, SYMBOLS_FULL, TOO_MANY_AXIOMS, TOO_MANY_RULES,
    UNKNOWN_PEER, UNKNOWN_SOURCE, VERSIONS_FULL,
};
pub use dd_concept::NoMemory;
pub use dd_json::Text;
pub use dd_peer::Pin;
pub use line::read_request;
pub use lookup::are_peers;
pub use names::Names;
pub use print::print_reply;
pub use reply::{BadWorld, Origin, Reply, Unread};
pub use request::{Request, WireErr};
