//! Whether the closures of a job's relevant peers can be numbered.
ghost use Rattle.std.specs.Prelude.{◌≡◌, ◌<◌, ℕ, All, Err, OnOk, length};
ghost use Rattle.dd_run.specs.Closures.{IsFirstFull};
ghost use Rattle.dd_run.specs.Fit.{HasFewConcepts, closure_for};
ghost use Rattle.dd_run.specs.declared.closures.ClosureErr.TheVariants.{Full};

use crate::compile::compiled_for;
use dd_rules::CompileErr;
use dd_task::Job;
use std::alloc::Global;
use thiserror::Error;

/// Why runs for a job cannot be made.
#[derive(Clone, Copy, Debug, PartialEq, Eq, Error)]
pub enum ClosureErr {
    /// The peer's closure has `count` concepts, which are more than 4,096.
    #[error("the closure of peer {peer} has {count} concepts, which are too many")]
    Full { peer: u32, count: u32 },
    #[error("out of memory")]
    NoMemory,
}

/// Tests that the closure of each relevant peer has at most 4,096 concepts. `Full` names the first one in the list of relevant
/// peers that has more: the least one, since the list rises.
pub fn check_closures(alloc: Global, job: &Job) -> Result<(), ClosureErr>
    ensures few { OnOk result (All (HasFewConcepts job.now) job.now.relevant) }
    ensures full { (i n : ℕ) → result ≡ Err (Full i n) → IsFirstFull job.now i n }
{
    for peer in job.relevant.as_slice() {
        check_closure(alloc, job, *peer)?;
    }
    Ok(())
}

fn check_closure(alloc: Global, job: &Job, peer: u32) -> Result<(), ClosureErr>
    ensures few { OnOk result (HasFewConcepts job.now peer) }
    ensures full { (i n : ℕ) → result ≡ Err (Full i n) → (i ≡ peer) × (n ≡ length (closure_for job.now peer)) × (4096 < n) }
{
    match compiled_for(alloc, job, peer) {
        Ok(compiled) => {
            drop(compiled);
            Ok(())
        }
        Err(CompileErr::ClosureFull { count }) => Err(ClosureErr::Full { peer, count }),
        Err(CompileErr::NoMemory) => Err(ClosureErr::NoMemory),
    }
}
