// Jobs, the keys of their tasks, and the goals that keys stand for.
use dd_concept::{Concept, Items};
use dd_peer::{Pinned, Query};

/// How many labels a run may put, and how many verdicts a session may take.
#[derive(Clone, Copy)]
pub struct Budget {
    pub expansions: u32,
    pub verdicts: u32,
}

/// A query with the versions that it is asked of, the peers that are relevant to it, rising, and its budget.
#[derive(Drop)]
pub struct Job {
    pub pinned: Pinned,
    pub query: Query,
    pub relevant: Items<u32>,
    pub budget: Budget,
}

/// The name of a task. `Root` asks whether some element of the query's peer has the left and lacks the right concept.
/// `Asked` asks whether peer `from` can have an element in the source of that onto rule and outside the sources of all into
/// rules in the set. Both are numbered among the rules of their kind that `to` keeps from `from`, and the set is strictly
/// rising.
#[derive(Drop)]
pub enum Key {
    Root,
    Asked {
        from: u32,
        to: u32,
        onto: u32,
        into_set: Items<u32>,
    },
}

/// Whether some element of the peer can have all concepts of the label.
#[derive(Drop)]
pub struct Goal {
    pub peer: u32,
    pub label: Items<Concept>,
}
