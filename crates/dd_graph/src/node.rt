use dd_concept::Items;
use dd_rules::{Clash, Step};

/// What was done at a label. Positions are those of labels in the table.
#[derive(Drop)]
pub enum Node {
    /// Nothing yet.
    Fresh,
    /// The label has this clash.
    Clash(Clash),
    /// The position of the least saturated label that has this one, which is another.
    Larger { to: u32 },
    /// The step that the label calls for, and the positions of the labels that it gives, in the order of its additions.
    Split { step: Step, to: Items<u32> },
    /// The label is complete, unless it has a rank. Each pair is the number of an existential restriction of the label and
    /// the position of the label that this asks of an element along the role.
    Done { to: Items<(u32, u32)> },
}

/// What is kept of a label.
#[derive(Drop)]
pub struct Entry {
    pub node: Node,
    /// How many labels were closed before this one, where it is closed.
    pub rank: Option<u32>,
    /// Whether the label is part of a complete open part of the graph.
    pub open: bool,
    /// Of a Done label: the existential restrictions with smaller numbers have their pairs.
    pub upto: u32,
    /// Whether the label is known to be saturated and without a clash.
    pub clear: bool,
}
