ghost use Rattle.std.specs.Prelude.{◌≡◌, ◌<◌, IfOk, length, take};
ghost use Rattle.dd_board.specs.declared.event.Outcome.TheVariants.{Proved};
ghost use Rattle.dd_board.specs.Boards.{OfSession};
ghost use Rattle.dd_board.specs.Fit.{IsPlaced};
ghost use Rattle.dd_board.specs.Standing.{IsOutcome};
ghost use Rattle.dd_trace.specs.Evidence.{ShowsYes};
ghost use Rattle.dd_trace.specs.Proved.{lines_to};

use crate::NoMemory;
use dd_board::{Board, TaskState};
use dd_task::Line;
use dd_trim::trim;
use std::alloc::Global;

/// A derivation of the query of a session whose root is proved: of its lines, under new numbers, the one that proves the root and all
/// that this one needs.
pub fn derivation_of(alloc: Global, b: &Board, session: u32) -> Result<Vec<Line>, NoMemory>
    requires there { session < length b.now }
    requires proved { OfSession (λ v. IsOutcome v Proved) b.now session }
    requires fit { OfSession (λ v. IsPlaced v.job) b.now session }
    ensures { IfOk result (λ lines. OfSession (λ v. ShowsYes v lines.items) b.now session) }
{
    let _legal = b.sessions();
    let count = proof_of(b.state(session, 0));
    let kept = trim(alloc, first_of(b.lines(session), count))?;
    Ok(kept)
}

// How many lines there are up to the one that proves the task; none, where it is not proved.
fn proof_of(state: &TaskState) -> usize
    ensures { result ≡ lines_to state.now }
{
    match state {
        TaskState::Proved { line } => *line as usize + 1,
        _ => 0,
    }
}

// So many of the lines, or all where there are no more.
fn first_of(lines: &[Line], count: usize) -> &[Line]
    ensures { result.now ≡ take count lines.now }
{
    if count >= lines.len() {
        return lines;
    }
    &lines[..count]
}
