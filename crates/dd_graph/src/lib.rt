//! The graph of labels that decides whether an element can have a label.
//!
//! The kernel tests each step before it records it: `kernel` has what is kept, `node` what is kept of one label, `begin` opens a call,
//! `put` adds labels, `note` and `close` write down what was done at one and its rank, `expand` makes one step, with `child` and `pair` for
//! the labels that it leads to, `ahead` puts one of them before its time, and `confirm` marks what is open, or tells what is still to be done. The advice guesses what comes next, and
//! promises nothing but to come to an end: `walk` and `order`. `search` puts both together, and `graph` is what others see of it; `way` is
//! how they go through an open part. `read` and `rules` ask the kernel and the peer's closure, `decided` has the answer.
#![tactic(auto)]

mod ahead;
mod begin;
mod child;
mod close;
mod confirm;
mod decided;
mod expand;
mod graph;
mod kernel;
mod node;
mod note;
mod order;
mod pair;
mod put;
mod read;
mod rules;
mod search;
mod walk;
mod way;

pub use decided::Decided;
pub use graph::Graph;
pub use node::{Entry, Node};
