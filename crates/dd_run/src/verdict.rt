//! The verdict on one goal.
ghost use Rattle.std.specs.Prelude.{ℕ, ◌≡◌, ◌≢◌, [], true, IfOk, Some, length, slice_get};
ghost use Rattle.dd_concept.specs.Same.{is_within};
ghost use Rattle.dd_graph.specs.View.{IsAt, IsReachedFrom, is_open_at, rank_of, view_of};
ghost use Rattle.dd_task.specs.Rules.{axioms_of};
ghost use Rattle.dd_task.specs.Verdicts.{IsRight};
ghost use Rattle.dd_run.specs.Fit.{IsFitGoal, IsFitView, closure_for};
ghost use Rattle.dd_run.specs.Numbers.{AreNumbersOf, IsGraphFor, IsRunFor};

use crate::compile::compiled_within;
use crate::numbers::numbers_for;
use crate::props::props_for;
use crate::spent::spent_of;
use bumpalo::Bump;
use dd_close::lines_of;
use dd_concept::Items;
use dd_graph::{Decided, Graph};
use dd_open::interp_of;
use dd_rules::Compiled;
use dd_set::{Bits, NoMemory};
use dd_task::{Goal, Job, Prop, Verdict};
use std::alloc::Global;

/// A verdict on the goal that is right by the axioms of its peer and these propagations into it: lines that show that no element
/// has the label, a model with an element that has it, or the run where it used up the expansions of the job's budget.
pub fn verdict_of(alloc: Global, job: &Job, goal: &Goal, view: &[Prop]) -> Result<Verdict, NoMemory>
    requires goal { IsFitGoal job.now goal.now }
    requires view { IsFitView job.now.pinned goal.now.peer view.now }
    ensures { IfOk result (IsRight job.now goal.now view.now) }
{
    let compiled = compiled_within(alloc, job, goal.peer)?;
    let label = numbers_for(alloc, &compiled, goal.label.as_slice())?;
    let arena = Bump::new(alloc);
    let mut graph = graph_for(alloc, &arena, compiled, job, goal.peer, view)?;
    let verdict = verdict_in(alloc, &mut graph, job, goal, view, &label);
    drop(graph);
    verdict
}

/// The graph of the closure and the view, without labels.
fn graph_for<'b>(
    alloc: Global,
    arena: &'b Bump,
    compiled: Compiled,
    job: &Job,
    peer: u32,
    view: &[Prop],
) -> Result<Graph<'b>, NoMemory>
    requires concepts { compiled.concepts ≡ closure_for job.now peer }
    requires axioms { compiled.axioms ≡ axioms_of job.now.pinned peer }
    ensures empty { IfOk result (λ g. (view_of g).labels ≡ []) }
    ensures graph { IfOk result (λ g. IsGraphFor job.now peer view.now (view_of g)) }
{
    let props = props_for(alloc, &compiled, &job.pinned, peer, view)?;
    Graph::new(alloc, arena, compiled, props)
}

/// The verdict of the graph on the goal, whose concepts have these numbers.
fn verdict_in(
    alloc: Global,
    g: &mut Graph<'_>,
    job: &Job,
    goal: &Goal,
    view: &[Prop],
    label: &Bits,
) -> Result<Verdict, NoMemory>
    requires empty { (view_of g.old).labels ≡ [] }
    requires graph { IsGraphFor job.now goal.now.peer view.now (view_of g.old) }
    requires inside { is_within goal.now.label (view_of g.old).closure.concepts ≡ true }
    requires width { label.now.width ≡ length (view_of g.old).closure.concepts }
    requires numbers { AreNumbersOf (view_of g.old).closure.concepts goal.now.label label.now.words }
    requires view { IsFitView job.now.pinned goal.now.peer view.now }
    ensures { IfOk result (IsRight job.now goal.now view.now) }
{
    g.known();
    match g.decide(alloc, label, job.budget.expansions)? {
        Decided::Closed { id, rank } => closed_in(alloc, g, id, rank, job, goal, view, label),
        Decided::Open { id } => open_in(alloc, g, id, job, goal, view, label),
        Decided::Spent { next } => spent_in(alloc, g, next, job, goal, view, label),
    }
}

/// The lines of the label, which is closed.
fn closed_in(
    alloc: Global,
    g: &Graph<'_>,
    id: u32,
    _rank: u32,
    job: &Job,
    goal: &Goal,
    view: &[Prop],
    _label: &Bits,
) -> Result<Verdict, NoMemory>
    requires run { IsRunFor job.now goal.now view.now (view_of g.now) _label.now.words }
    requires at { IsAt (view_of g.now) id _label.now.words }
    requires closed { rank_of (view_of g.now) id ≡ Some _rank }
    requires view { IsFitView job.now.pinned goal.now.peer view.now }
    ensures { IfOk result (IsRight job.now goal.now view.now) }
{
    let lines = lines_of(alloc, &job.pinned, g, goal.peer, id, view)?;
    Ok(Verdict::Closed(Items::from_vec(lines)))
}

/// The model of the label, which is open.
fn open_in(
    alloc: Global,
    g: &Graph<'_>,
    id: u32,
    _job: &Job,
    _goal: &Goal,
    _view: &[Prop],
    _label: &Bits,
) -> Result<Verdict, NoMemory>
    requires run { IsRunFor _job.now _goal.now _view.now (view_of g.now) _label.now.words }
    requires at { IsAt (view_of g.now) id _label.now.words }
    requires open { is_open_at (view_of g.now) id ≡ true }
    ensures { IfOk result (IsRight _job.now _goal.now _view.now) }
{
    g.known();
    let (model, x, _positions) = interp_of(alloc, g, id)?;
    Ok(Verdict::Open(model, x))
}

/// The run, which has no room for this label.
fn spent_in(
    alloc: Global,
    g: &Graph<'_>,
    next: Bits,
    _job: &Job,
    goal: &Goal,
    view: &[Prop],
    _label: &Bits,
) -> Result<Verdict, NoMemory>
    requires run { IsRunFor _job.now goal.now view.now (view_of g.now) _label.now.words }
    requires put { length (view_of g.now).labels ≡ _job.now.budget.expansions }
    requires reached { IsReachedFrom (view_of g.now) _label.now.words next.words }
    requires absent { (k : ℕ) → slice_get (view_of g.now).labels k ≢ Some next.words }
    requires width { next.width ≡ length (view_of g.now).closure.concepts }
    ensures { IfOk result (IsRight _job.now goal.now view.now) }
{
    g.known();
    next.width();
    Ok(Verdict::Spent(spent_of(alloc, g, goal, view, next)?))
}
