// What is answered to a job.
use dd_concept::Items;
use dd_task::{Line, SpentRun};
use dd_world::World;

/// What is answered to a job: lines that derive its query, a world that is a countermodel, the run that used up its expansions,
/// the number of verdicts that were taken where there may be no more, or that there was no memory.
#[derive(Drop)]
pub enum Answer {
    Yes(Items<Line>),
    No(World),
    RunSpent(SpentRun),
    VerdictsSpent(u64),
    Memory,
}
