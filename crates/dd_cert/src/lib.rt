//! Certificates: JSON values that carry the evidence for an answer. A derivation is one of kind `yes`, a countermodel one of
//! kind `no`.
//!
//! `form` has a certificate as it is written, before its numbers and texts are looked at, and `read` the lines or the world
//! that it is. Reading is done in passes: `shape` and `line_shape` find the form, `limits`, `line_limits` and `line_texts`
//! look at the numbers and the texts, `add` adds the symbols of a world and `build` makes it by their numbers, and `lines`
//! makes the lines of a derivation, whose symbols it adds. `print` and `print_world` write the certificate of an answer, and
//! `laws` says that it is read back.
#![tactic(auto)]

mod add;
mod build;
mod form;
mod laws;
mod limits;
mod line_limits;
mod line_shape;
mod line_texts;
mod lines;
mod parts;
mod print;
mod print_world;
mod read;
mod shape;

pub use dd_concept::NoMemory;
pub use form::{CertForm, Kind, LineForm, LocalForm, Rule, WhyForm, WorldForm};
pub use laws::{certs_are_unique, printed_certs_read};
pub use print::print_cert;
pub use read::{Cert, CertErr, read_cert};
