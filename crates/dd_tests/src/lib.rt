//! Tests of the libraries, by their public calls. They stand in a crate of their own, since a crate with tests is proved twice.
//!
//! They show what no session of the program's own tests shows: `concepts`, `interpretations`, `peers` and `worlds` of several
//! peers; `tasks` with their goals, and `derivations`; `labels` as sets and in a table, `labels_of_rules` under the rules of a
//! peer, and `closures` the concepts of one by their numbers; `lines` however they are read; `members` of JSON objects; `symbols`
//! and `texts` both ways; `lookups` and `replies` of the protocol, with the codes that the program does not answer yet. `kept_answers` by their keys, requests that are
//! `made`, and `words` as commands. `rows` says what a table
//! is, and `versions` makes what `peers` and `worlds` are about.
//!
//! A value that owns memory is dropped by a call of `drop`, which takes far less to prove than a drop at the end of its block.
#![tactic(auto)]

#[cfg(test)]
mod bodies;
#[cfg(test)]
mod closures;
#[cfg(test)]
mod concepts;
#[cfg(test)]
mod derivations;
#[cfg(test)]
mod graphs;
#[cfg(test)]
mod interpretations;
#[cfg(test)]
mod kept_answers;
#[cfg(test)]
mod labels;
#[cfg(test)]
mod labels_of_rules;
#[cfg(test)]
mod lines;
#[cfg(test)]
mod lookups;
#[cfg(test)]
mod made;
#[cfg(test)]
mod members;
#[cfg(test)]
mod peers;
#[cfg(test)]
mod pins;
#[cfg(test)]
mod replies;
pub mod rows;
#[cfg(test)]
mod symbols;
#[cfg(test)]
mod tasks;
#[cfg(test)]
mod texts;
pub mod versions;
#[cfg(test)]
mod words;
#[cfg(test)]
mod worlds;
