//! The words after the program's name, read with `clap`: a command, and the numbers of its options.
//!
//! `command` has what words may ask for, `options` the rules that `clap` is given, `numbers` what it answers, and `read` all of it.
#![tactic(auto)]

mod command;
mod numbers;
mod options;
mod read;

pub use command::{Command, Generated, Options, WordsErr};
pub use read::read_words;
pub use std::alloc::AllocError as NoMemory;
