ghost use Rattle.std.specs.Prelude.{◌≡◌, IfOk, MatchOption, false, true};
ghost use Rattle.dd_read.specs.Asks.{budget_of, first_full, is_budget, is_up_to, most_expansions, most_verdicts};
ghost use Rattle.dd_read.specs.Told.{TellsCount};

use crate::options::Options;
use dd_concept::NoMemory;
use dd_run::{ClosureErr, check_closures};
use dd_task::{Budget, Job};
use std::alloc::Global;

/// The most labels that a run for an ask may put.
const MOST_EXPANSIONS: u32 = 200_000;

/// The most verdicts that an ask may take.
const MOST_VERDICTS: u32 = 20_000;

/// The budget of an ask, where it is within its limits. What the ask does not say is that of the options.
pub fn budget_of(options: Options, expansions: Option<u64>, verdicts: Option<u64>) -> Option<Budget>
    ensures { MatchOption result (is_budget (budget_of options expansions verdicts) ≡ false) (λ b. (b ≡ budget_of options expansions verdicts) × (is_budget b ≡ true)) }
{
    let expansions = within(
        expansions.unwrap_or(options.expansions as u64),
        MOST_EXPANSIONS,
    )?;
    let verdicts = within(verdicts.unwrap_or(options.verdicts as u64), MOST_VERDICTS)?;
    Some(Budget {
        expansions,
        verdicts,
    })
}

/// The number, where it is from 1 up to `most`.
fn within(number: u64, most: u32) -> Option<u32>
    ensures { MatchOption result (is_up_to most number ≡ false) (λ n. (n ≡ number) × (is_up_to most n ≡ true)) }
{
    if 1 <= number && number <= most as u64 {
        Some(number as u32)
    } else {
        None
    }
}

/// The number of concepts in the closure of the first of the job's relevant peers where these are too many.
pub fn full_closure(alloc: Global, job: &Job) -> Result<Option<u32>, NoMemory>
    ensures { IfOk result (λ count. count ≡ first_full job.now job.now.relevant) }
{
    match check_closures(alloc, job) {
        Ok(()) => Ok(None),
        Err(e) => count_of(e),
    }
}

/// The number of concepts that are too many.
fn count_of(e: ClosureErr) -> Result<Option<u32>, NoMemory>
    ensures { IfOk result (TellsCount e) }
{
    match e {
        ClosureErr::Full { count, .. } => Ok(Some(count)),
        ClosureErr::NoMemory => Err(NoMemory),
    }
}
