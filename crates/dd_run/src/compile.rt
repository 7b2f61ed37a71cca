// The closure of a peer for a job, with its numbers.
ghost use Rattle.std.specs.Prelude.{◌≡◌, ◌<◌, ℕ, Err, IfOk, length};
ghost use Rattle.dd_rules.specs.declared.compiled.CompileErr.TheVariants.{ClosureFull};
ghost use Rattle.dd_task.specs.Rules.{axioms_of};
ghost use Rattle.dd_run.specs.Fit.{HasFewConcepts, closure_for};

use dd_concept::Axiom;
use dd_peer::Pinned;
use dd_rules::{CompileErr, Compiled};
use dd_set::NoMemory;
use dd_task::{Job, extra_of, version_of};
use std::alloc::Global;

/// The closure of the peer for the job.
pub(crate) fn compiled_for(alloc: Global, job: &Job, peer: u32) -> Result<Compiled, CompileErr>
    ensures concepts { IfOk result (λ c. c.concepts ≡ closure_for job.now peer) }
    ensures axioms { IfOk result (λ c. c.axioms ≡ axioms_of job.now.pinned peer) }
    ensures few { IfOk result (λ c. HasFewConcepts job.now peer) }
    ensures full { (n : ℕ) → result ≡ Err (ClosureFull n) → (n ≡ length (closure_for job.now peer)) × (4096 < n) }
{
    let Ok(extra) = extra_of(alloc, job, peer) else {
        return Err(CompileErr::NoMemory);
    };
    Compiled::new(alloc, axioms_at(&job.pinned, peer), &extra)
}

/// The same where it has few enough concepts.
pub(crate) fn compiled_within(alloc: Global, job: &Job, peer: u32) -> Result<Compiled, NoMemory>
    requires { HasFewConcepts job.now peer }
    ensures concepts { IfOk result (λ c. c.concepts ≡ closure_for job.now peer) }
    ensures axioms { IfOk result (λ c. c.axioms ≡ axioms_of job.now.pinned peer) }
{
    match compiled_for(alloc, job, peer) {
        Ok(compiled) => Ok(compiled),
        Err(CompileErr::NoMemory) => Err(NoMemory),
        Err(CompileErr::ClosureFull { count }) => unreachable!(),
    }
}

/// The axioms of the peer.
fn axioms_at(p: &Pinned, peer: u32) -> &[Axiom]
    ensures { result.now ≡ axioms_of p.now peer }
{
    match version_of(p, peer) {
        Some(version) => version.axioms.as_slice(),
        None => &[],
    }
}
