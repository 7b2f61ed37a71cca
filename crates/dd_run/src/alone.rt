//! The answer to the query of a peer that is alone.
ghost use Rattle.std.specs.Prelude.{◌≡◌, ◌∷◌, [], IfOk};
ghost use Rattle.dd_task.specs.Goals.{goal_for};
ghost use Rattle.dd_task.specs.Verdicts.{IsRight};
ghost use Rattle.dd_task.specs.declared.job.Key.TheVariants.{Root};
ghost use Rattle.dd_run.specs.Answers.{IsRightAnswer};
ghost use Rattle.dd_run.specs.Fit.{HasFewConcepts, IsAlone};

use crate::verdict::verdict_of;
use dd_answer::Answer;
use dd_concept::Items;
use dd_interp::Interp;
use dd_set::NoMemory;
use dd_task::{Job, Key, Verdict, goal_of};
use dd_world::World;
use std::alloc::Global;

/// The answer to the query of a job with one peer: lines that derive it, a countermodel, the run that used up its expansions, or
/// want of memory.
pub fn answer_alone(alloc: Global, job: &Job) -> Answer
    requires alone { IsAlone job.now }
    requires few { HasFewConcepts job.now 0 }
    ensures { IsRightAnswer job.now result }
{
    match answer(alloc, job) {
        Ok(answer) => answer,
        Err(_) => Answer::Memory,
    }
}

fn answer(alloc: Global, job: &Job) -> Result<Answer, NoMemory>
    requires alone { IsAlone job.now }
    requires few { HasFewConcepts job.now 0 }
    ensures { IfOk result (IsRightAnswer job.now) }
{
    let goal = goal_of(alloc, job, &Key::Root)?;
    let verdict = verdict_of(alloc, job, &goal, &[])?;
    drop(goal);
    answer_by(alloc, job, verdict)
}

/// The answer by the verdict on the query's goal.
fn answer_by(alloc: Global, _job: &Job, verdict: Verdict) -> Result<Answer, NoMemory>
    requires alone { IsAlone _job.now }
    requires right { IsRight _job.now (goal_for _job.now Root) [] verdict }
    ensures { IfOk result (IsRightAnswer _job.now) }
{
    match verdict {
        Verdict::Closed(lines) => Ok(Answer::Yes(lines)),
        Verdict::Open(model, x) => Ok(Answer::No(world_of(alloc, model)?)),
        Verdict::Spent(run) => Ok(Answer::RunSpent(run)),
    }
}

/// The world of one peer.
fn world_of(alloc: Global, model: Interp) -> Result<World, NoMemory>
    ensures { IfOk result (λ w. (w.locals ≡ model ∷ []) × (w.links ≡ [])) }
{
    let mut locals = Items::new(alloc);
    locals.push(model)?;
    Ok(World {
        locals,
        links: Items::new(alloc),
    })
}
