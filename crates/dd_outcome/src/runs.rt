// The run that a journal has.
ghost use Rattle.std.specs.Prelude.{◌≡◌, true};
ghost use Rattle.std.specs.List.{list_any};
ghost use Rattle.std.specs.Option.{option_copied};
ghost use Rattle.dd_board.specs.Standing.{is_spent};
ghost use Rattle.dd_outcome.specs.Runs.{IsRunOrMemory, TellsRun, run_of};

use dd_answer::Answer;
use dd_board::Event;
use dd_task::{SpentRun, copy_spent};
use std::alloc::Global;

/// A run that was posted.
pub(crate) fn posted_run(alloc: Global, journal: &[Event]) -> Answer
    requires { list_any is_spent journal.now ≡ true }
    ensures { TellsRun journal.now result }
{
    for event in journal {
        if let Some(run) = run_by(event) {
            return copy_of(alloc, run);
        }
    }
    unreachable!()
}

// The run of the event, where it posts one.
fn run_by(event: &Event) -> Option<&SpentRun>
    ensures { option_copied result ≡ run_of event.now }
{
    match event {
        Event::Spent { run, .. } => Some(run),
        _ => None,
    }
}

fn copy_of(alloc: Global, run: &SpentRun) -> Answer
    ensures { IsRunOrMemory run.now result }
{
    match copy_spent(alloc, run) {
        Ok(copy) => Answer::RunSpent(copy),
        Err(_) => Answer::Memory,
    }
}
