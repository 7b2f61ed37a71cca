//! Jobs, the keys of their tasks, the goals that keys stand for, and the lines and verdicts that tasks are answered with.
//!
//! `job` has jobs, keys and goals, `line` lines with their reasons, and propagations, `verdict` what a run answers of a goal.
//! `goals` makes the goal of a key, `demands` the keys that a model raises, `extra` the concepts of a closure, `copies` makes
//! equal values, `same` compares keys and jobs.
#![tactic(auto)]

mod copies;
mod demands;
mod extra;
mod goals;
mod job;
mod line;
mod same;
mod verdict;

pub use copies::{copy_goal, copy_key, copy_line, copy_prop, copy_spent};
pub use dd_concept::NoMemory;
pub use demands::demands_of;
pub use extra::extra_of;
pub use goals::{goal_of, version_of};
pub use job::{Budget, Goal, Job, Key};
pub use line::{Line, Prop, Why};
pub use same::{same_job, same_key};
pub use verdict::{SpentRun, Verdict};
