// Equal values once more.
ghost use Rattle.std.specs.Prelude.{◌≡◌, IfOk};

use crate::NoMemory;
use crate::job::{Goal, Key};
use crate::line::{Line, Prop, Why};
use crate::verdict::SpentRun;
use dd_concept::{Concept, Items, copy};
use dd_set::Bits;
use std::alloc::Global;

/// An equal key.
pub fn copy_key(alloc: Global, k: &Key) -> Result<Key, NoMemory>
    ensures { IfOk result (λ d. d ≡ k.now) }
{
    match k {
        Key::Root => Ok(Key::Root),
        Key::Asked {
            from,
            to,
            onto,
            into_set,
        } => Ok(Key::Asked {
            from: *from,
            to: *to,
            onto: *onto,
            into_set: Items::from_slice(alloc, into_set.as_slice())?,
        }),
    }
}

/// An equal goal.
pub fn copy_goal(alloc: Global, g: &Goal) -> Result<Goal, NoMemory>
    ensures { IfOk result (λ h. h ≡ g.now) }
{
    Ok(Goal {
        peer: g.peer,
        label: copy_concepts(alloc, g.label.as_slice())?,
    })
}

/// An equal propagation.
pub fn copy_prop(alloc: Global, p: &Prop) -> Result<Prop, NoMemory>
    ensures { IfOk result (λ q. q ≡ p.now) }
{
    Ok(Prop {
        from: p.from,
        onto: p.onto,
        into_set: Items::from_slice(alloc, p.into_set.as_slice())?,
        line: p.line,
    })
}

/// An equal line.
pub fn copy_line(alloc: Global, l: &Line) -> Result<Line, NoMemory>
    ensures { IfOk result (λ m. m ≡ l.now) }
{
    let label = copy_concepts(alloc, l.label.as_slice())?;
    Ok(Line {
        peer: l.peer,
        label,
        why: copy_why(alloc, &l.why)?,
    })
}

/// An equal run.
pub fn copy_spent(alloc: Global, s: &SpentRun) -> Result<SpentRun, NoMemory>
    ensures { IfOk result (λ t. t ≡ s.now) }
{
    let goals = copy_goals(alloc, s.goals.as_slice())?;
    let props = copy_props(alloc, s.props.as_slice())?;
    let concepts = copy_concepts(alloc, s.concepts.as_slice())?;
    let labels = copy_labels(alloc, s.labels.as_slice())?;
    Ok(SpentRun {
        peer: s.peer,
        goals,
        props,
        concepts,
        labels,
        next: s.next.copy(alloc)?,
    })
}

fn copy_why(alloc: Global, w: &Why) -> Result<Why, NoMemory>
    ensures { IfOk result (λ x. x ≡ w.now) }
{
    match w {
        Why::Bottom => Ok(Why::Bottom),
        Why::Clash { name } => Ok(Why::Clash { name: *name }),
        Why::And { at, cite } => Ok(Why::And {
            at: *at,
            cite: *cite,
        }),
        Why::Or { at, left, right } => Ok(Why::Or {
            at: *at,
            left: *left,
            right: *right,
        }),
        Why::Axiom { index, left, right } => Ok(Why::Axiom {
            index: *index,
            left: *left,
            right: *right,
        }),
        Why::Cut { on, yes, no } => Ok(Why::Cut {
            on: copy(alloc, on)?,
            yes: *yes,
            no: *no,
        }),
        Why::Successor { at, cite } => Ok(Why::Successor {
            at: *at,
            cite: *cite,
        }),
        Why::Bridge {
            from,
            onto,
            into_set,
            cite,
            each,
        } => copy_bridge(alloc, *from, *onto, into_set, *cite, each),
    }
}

fn copy_bridge(
    alloc: Global,
    from: u32,
    onto: u32,
    into_set: &Items<u32>,
    cite: u32,
    each: &Items<u32>,
) -> Result<Why, NoMemory>
    ensures { IfOk result (λ x. x ≡ Why.Bridge from onto into_set.now cite each.now) }
{
    let into_set = Items::from_slice(alloc, into_set.as_slice())?;
    Ok(Why::Bridge {
        from,
        onto,
        into_set,
        cite,
        each: Items::from_slice(alloc, each.as_slice())?,
    })
}

fn copy_concepts(alloc: Global, concepts: &[Concept]) -> Result<Items<Concept>, NoMemory>
    ensures { IfOk result (λ cs. cs ≡ concepts.now) }
{
    let mut copies = Items::new(alloc);
    for c in concepts {
        copies.push(copy(alloc, c)?)?;
    }
    Ok(copies)
}

fn copy_goals(alloc: Global, goals: &[Goal]) -> Result<Items<Goal>, NoMemory>
    ensures { IfOk result (λ gs. gs ≡ goals.now) }
{
    let mut copies = Items::new(alloc);
    for g in goals {
        copies.push(copy_goal(alloc, g)?)?;
    }
    Ok(copies)
}

fn copy_props(alloc: Global, props: &[Prop]) -> Result<Items<Prop>, NoMemory>
    ensures { IfOk result (λ ps. ps ≡ props.now) }
{
    let mut copies = Items::new(alloc);
    for p in props {
        copies.push(copy_prop(alloc, p)?)?;
    }
    Ok(copies)
}

fn copy_labels(alloc: Global, labels: &[Bits]) -> Result<Items<Bits>, NoMemory>
    ensures { IfOk result (λ ls. ls ≡ labels.now) }
{
    let mut copies = Items::new(alloc);
    for label in labels {
        copies.push(label.copy(alloc)?)?;
    }
    Ok(copies)
}
