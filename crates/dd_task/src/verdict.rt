// What a run answers of a goal.
use crate::job::Goal;
use crate::line::{Line, Prop};
use dd_concept::{Concept, Items};
use dd_interp::Interp;
use dd_set::Bits;

/// A run that used up its expansions: the labels that it put, as sets of numbers of the concepts, and one more, that it would
/// have put next.
#[derive(Drop)]
pub struct SpentRun {
    pub peer: u32,
    pub goals: Items<Goal>,
    pub props: Items<Prop>,
    pub concepts: Items<Concept>,
    pub labels: Items<Bits>,
    pub next: Bits,
}

/// What a run answers of a goal: lines that show that no element has the label, an interpretation with an element that has
/// it, or a run that was spent.
#[derive(Drop)]
pub enum Verdict {
    Closed(Items<Line>),
    Open(Interp, u32),
    Spent(SpentRun),
}
