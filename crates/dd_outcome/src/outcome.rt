ghost use Rattle.std.specs.Prelude.{◌≡◌, ◌<◌, IfOk, length};
ghost use Rattle.dd_board.specs.declared.event.Outcome.TheVariants.{Proved, Quiet, SpentRun as RunOut, SpentVerdicts};
ghost use Rattle.dd_board.specs.Boards.{OfSession};
ghost use Rattle.dd_board.specs.Fit.{IsPlaced};
ghost use Rattle.dd_board.specs.Legal.{empty_start};
ghost use Rattle.dd_board.specs.Standing.{IsOutcome};
ghost use Rattle.dd_outcome.specs.Answers.{Answers};

use crate::runs::posted_run;
use dd_answer::Answer;
use dd_board::{Board, Outcome};
use dd_concept::Items;
use dd_trace::derivation_of;
use dd_union::world_of;
use std::alloc::Global;

/// What is answered to the job of a session that began with nothing, with its evidence. A session that is still going is answered
/// by want of memory, which kept it from an end.
pub fn answer_of(alloc: Global, board: &Board, session: u32) -> Answer
    requires there { session < length board.now }
    requires placed { OfSession (λ v. IsPlaced v.job) board.now session }
    requires from_nothing { OfSession (λ v. v.start ≡ empty_start v.job.pinned) board.now session }
    ensures { OfSession (λ v. Answers v.job result) board.now session }
{
    match board.outcome(session) {
        Outcome::Proved => derivation(alloc, board, session),
        Outcome::SpentRun => spent_run(alloc, board, session),
        Outcome::Quiet => countermodel(alloc, board, session),
        Outcome::SpentVerdicts => spent_verdicts(board, session),
        Outcome::Going => Answer::Memory,
    }
}

// The lines of a session whose root is proved.
fn derivation(alloc: Global, board: &Board, session: u32) -> Answer
    requires there { session < length board.now }
    requires placed { OfSession (λ v. IsPlaced v.job) board.now session }
    requires from_nothing { OfSession (λ v. v.start ≡ empty_start v.job.pinned) board.now session }
    requires proved { OfSession (λ v. IsOutcome v Proved) board.now session }
    ensures { OfSession (λ v. Answers v.job result) board.now session }
{
    match derivation_of(alloc, board, session) {
        Ok(lines) => Answer::Yes(Items::from_vec(lines)),
        Err(_) => Answer::Memory,
    }
}

// The world of a session that is quiet.
fn countermodel(alloc: Global, board: &Board, session: u32) -> Answer
    requires there { session < length board.now }
    requires placed { OfSession (λ v. IsPlaced v.job) board.now session }
    requires quiet { OfSession (λ v. IsOutcome v Quiet) board.now session }
    ensures { OfSession (λ v. Answers v.job result) board.now session }
{
    let _legal = board.sessions();
    match world_of(alloc, board, session) {
        Ok(world) => Answer::No(world),
        Err(_) => Answer::Memory,
    }
}

// A run that was posted in a session where one used up its expansions.
fn spent_run(alloc: Global, board: &Board, session: u32) -> Answer
    requires there { session < length board.now }
    requires from_nothing { OfSession (λ v. v.start ≡ empty_start v.job.pinned) board.now session }
    requires spent { OfSession (λ v. IsOutcome v RunOut) board.now session }
    ensures { OfSession (λ v. Answers v.job result) board.now session }
{
    let _legal = board.sessions();
    posted_run(alloc, board.journal(session))
}

// How many verdicts a session took that took all that it may.
fn spent_verdicts(board: &Board, session: u32) -> Answer
    requires there { session < length board.now }
    requires from_nothing { OfSession (λ v. v.start ≡ empty_start v.job.pinned) board.now session }
    requires spent { OfSession (λ v. IsOutcome v SpentVerdicts) board.now session }
    ensures { OfSession (λ v. Answers v.job result) board.now session }
{
    let _legal = board.sessions();
    Answer::VerdictsSpent(board.job(session).budget.verdicts as u64)
}
