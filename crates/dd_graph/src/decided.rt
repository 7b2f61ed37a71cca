use dd_set::Bits;

/// Whether an element can have a label.
#[derive(Drop)]
pub enum Decided {
    /// No element can: the label is at this position and has this rank.
    Closed { id: u32, rank: u32 },
    /// An element can: the label is at this position, and open.
    Open { id: u32 },
    /// The call put as many new labels as it might, and this one would be next.
    Spent { next: Bits },
}
