// A session as it is kept.
use crate::event::{Event, TaskState};
use dd_concept::{Items, Shared};
use dd_task::{Job, Key, Line, Prop};

/// Who holds a task: the ticket's number, and how many propagations it has.
#[derive(Clone, Copy)]
pub(crate) struct Holding {
    pub(crate) number: u32,
    pub(crate) seen: u32,
}

/// A task. `is_due` says whether it is unknown or stale, `is_wanted` whether the root depends on it.
#[derive(Drop)]
pub(crate) struct Slot {
    pub(crate) key: Key,
    pub(crate) holder: Option<Holding>,
    pub(crate) state: TaskState,
    pub(crate) is_due: bool,
    pub(crate) is_wanted: bool,
}

/// A session. `next` is the number of the next ticket, `held` says how many tasks are held, `posts` how many verdicts were
/// posted, and `has_spent` whether one of them was a spent run.
#[derive(Drop)]
pub(crate) struct Session {
    pub(crate) job: Shared<Job>,
    pub(crate) tasks: Items<Slot>,
    pub(crate) lines: Items<Line>,
    pub(crate) props: Items<Items<Prop>>,
    pub(crate) journal: Vec<Event>,
    pub(crate) next: u32,
    pub(crate) held: u64,
    pub(crate) posts: u64,
    pub(crate) has_spent: bool,
}
