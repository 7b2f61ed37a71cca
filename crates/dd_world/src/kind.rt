//! What a version asks of a world, by kinds.

/// The lists of a version, in the order in which faults are told.
#[derive(Clone, Copy)]
pub enum Kind {
    Axioms,
    Into,
    Onto,
}
