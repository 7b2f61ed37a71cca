// What is kept of a run that used up its expansions.
ghost use Rattle.std.specs.Prelude.{◌≡◌, ◌∷◌, [], IfOk, length};
ghost use Rattle.dd_graph.specs.View.{view_of};
ghost use Rattle.dd_run.specs.Numbers.{with_width};

use dd_concept::{Concept, Items};
use dd_graph::Graph;
use dd_rules::Compiled;
use dd_set::{Bits, NoMemory};
use dd_table::Table;
use dd_task::{Goal, Prop, SpentRun, copy_goal, copy_prop};
use std::alloc::Global;

/// The run over the goal and the view that made this graph, and the label that it would have put next.
pub(crate) fn spent_of(
    alloc: Global,
    g: &Graph<'_>,
    goal: &Goal,
    view: &[Prop],
    next: Bits,
) -> Result<SpentRun, NoMemory>
    ensures peer { IfOk result (λ r. r.peer ≡ goal.now.peer) }
    ensures goals { IfOk result (λ r. r.goals ≡ goal.now ∷ []) }
    ensures props { IfOk result (λ r. r.props ≡ view.now) }
    ensures concepts { IfOk result (λ r. r.concepts ≡ (view_of g.now).closure.concepts) }
    ensures labels { IfOk result (λ r. r.labels ≡ with_width (length (view_of g.now).closure.concepts) (view_of g.now).labels) }
    ensures next { IfOk result (λ r. r.next ≡ next) }
{
    let goals = only(alloc, goal)?;
    let props = props_of(alloc, view)?;
    let concepts = concepts_of(alloc, g.compiled())?;
    let labels = labels_of(alloc, g.table())?;
    Ok(SpentRun {
        peer: goal.peer,
        goals,
        props,
        concepts,
        labels,
        next,
    })
}

fn only(alloc: Global, goal: &Goal) -> Result<Items<Goal>, NoMemory>
    ensures { IfOk result (λ gs. gs ≡ goal.now ∷ []) }
{
    let mut goals = Items::new(alloc);
    goals.push(copy_goal(alloc, goal)?)?;
    Ok(goals)
}

fn props_of(alloc: Global, view: &[Prop]) -> Result<Items<Prop>, NoMemory>
    ensures { IfOk result (λ ps. ps ≡ view.now) }
{
    let mut copies = Items::new(alloc);
    for p in view {
        copies.push(copy_prop(alloc, p)?)?;
    }
    Ok(copies)
}

/// All concepts of the closure, as new trees.
fn concepts_of(alloc: Global, compiled: &Compiled) -> Result<Items<Concept>, NoMemory>
    ensures { IfOk result (λ cs. cs ≡ compiled.now.concepts) }
{
    let mut concepts = Items::new(alloc);
    for n in 0..compiled.count() {
        concepts.push(compiled.concept(alloc, n)?)?;
    }
    Ok(concepts)
}

/// All labels of the table.
fn labels_of(alloc: Global, table: &Table<'_>) -> Result<Items<Bits>, NoMemory>
    ensures { IfOk result (λ ls. ls ≡ with_width table.now.width table.now.list) }
{
    let mut labels = Items::new(alloc);
    for id in 0..table.len() {
        labels.push(table.label(id).to_bits(alloc)?)?;
    }
    Ok(labels)
}
