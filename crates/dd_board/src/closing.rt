// What a closed verdict adds to a session: lines, and a propagation.
ghost use Rattle.std.specs.Prelude.{◌≡◌, ◌+◌, ◌-◌, ◌^◌, ◌<◌, ◌++◌, ◌∷◌, [], IfOk, OnErr, OnOk, if◌then◌else◌, length, map, take};
ghost use Rattle.std.specs.List.{filter, list_any};
ghost use Rattle.std.specs.Option.{option_copied, option_map_or};
ghost use Rattle.std.specs.Prelude.{slice_get};
ghost use Rattle.dd_concept.specs.Same.{has};
ghost use Rattle.dd_task.specs.Goals.{no_source_of};
ghost use Rattle.dd_task.specs.Rules.{into_rules};
ghost use Rattle.dd_task.specs.declared.line.Prop.{Prop as PropView};
ghost use Rattle.dd_board.specs.Moved.{moved_line, moved_number, moved_why};
ghost use Rattle.dd_board.specs.Steps.{last_label, needed, with_prop};
ghost use Rattle.dd_board.specs.View.{change_at};

use crate::NoMemory;
use dd_concept::{Concept, Items, contains, copy, nnf_not};
use dd_peer::{Pinned, Rule};
use dd_task::{Job, Key, Line, Prop, Why, version_of};
use std::alloc::Global;

/// Adds the verdict's lines, numbered as those of the session, and the propagation of the key. Without memory both lists stay.
pub(crate) fn extend(
    alloc: Global,
    lines: &mut Items<Line>,
    props: &mut Items<Items<Prop>>,
    job: &Job,
    key: &Key,
    view: &[Prop],
    own: &[Line],
) -> Result<(), NoMemory>
    ensures lines { OnOk result (lines.new ≡ lines.old ++ map (moved_line view.now (length lines.old)) own.now) }
    ensures props { OnOk result (props.new ≡ with_prop job.now.pinned (last_label own.now) (length lines.old + length own.now - 1) props.old key.now) }
    ensures few { OnOk result (length lines.new < 2 ^ 32) }
    ensures same_lines { OnErr result (lines.new ≡ lines.old) }
    ensures same_props { OnErr result (props.new ≡ props.old) }
{
    let count = lines.len();
    let Ok(line) = u32::try_from(count.saturating_add(own.len()).saturating_sub(1)) else {
        return Err(NoMemory);
    };
    if line == u32::MAX {
        return Err(NoMemory);
    }
    append(alloc, lines, view, own)?;
    match add_for_key(alloc, props, &job.pinned, key, label_at_end(own), line) {
        Ok(()) => Ok(()),
        Err(e) => {
            lines.truncate(count);
            Err(e)
        }
    }
}

fn label_at_end(own: &[Line]) -> &[Concept]
    ensures { result.now ≡ last_label own.now }
{
    match own.last() {
        Some(line) => line.label.as_slice(),
        None => &[],
    }
}

// ---- the propagation

fn add_for_key(
    alloc: Global,
    props: &mut Items<Items<Prop>>,
    p: &Pinned,
    key: &Key,
    label: &[Concept],
    line: u32,
) -> Result<(), NoMemory>
    ensures ok { OnOk result (props.new ≡ with_prop p.now label.now line props.old key.now) }
    ensures err { OnErr result (props.new ≡ props.old) }
{
    match key {
        Key::Root => Ok(()),
        Key::Asked {
            from,
            to,
            onto,
            into_set,
        } => {
            let into_set = needed_of(alloc, p, *from, *to, label, into_set.as_slice())?;
            add_prop(
                props,
                *to,
                Prop {
                    from: *from,
                    onto: *onto,
                    into_set,
                    line,
                },
            )
        }
    }
}

fn add_prop(props: &mut Items<Items<Prop>>, i: u32, prop: Prop) -> Result<(), NoMemory>
    ensures ok { OnOk result (props.new ≡ change_at (λ list. list ++ prop ∷ []) props.old i) }
    ensures err { OnErr result (props.new ≡ props.old) }
{
    if i as usize >= props.len() {
        return Ok(());
    }
    props.list[i as usize].push(prop)?;
    Ok(())
}

// Those into rules of the set whose complemented sources are in the label.
fn needed_of(
    alloc: Global,
    p: &Pinned,
    from: u32,
    to: u32,
    label: &[Concept],
    set: &[u32],
) -> Result<Items<u32>, NoMemory>
    ensures { IfOk result (λ ks. ks ≡ needed p.now from to label.now set.now) }
{
    let mut kept = Items::new(alloc);
    for k in set {
        let is_one = is_needed(alloc, p, from, to, label, *k)?;
        push_where(&mut kept, *k, is_one)?;
    }
    Ok(kept)
}

fn push_where(list: &mut Items<u32>, k: u32, is_one: bool) -> Result<(), NoMemory>
    ensures { OnOk result (list.new ≡ list.old ++ (if is_one then k ∷ [] else [])) }
{
    if is_one {
        return list.push(k);
    }
    Ok(())
}

fn is_needed(
    alloc: Global,
    p: &Pinned,
    from: u32,
    to: u32,
    label: &[Concept],
    k: u32,
) -> Result<bool, NoMemory>
    ensures { IfOk result (λ b. b ≡ list_any (has label.now) (no_source_of p.now from to k)) }
{
    match into_rule(p, from, to, k) {
        Some(rule) => {
            let source = nnf_not(alloc, &rule.source)?;
            Ok(contains(label, &source))
        }
        None => Ok(false),
    }
}

fn into_rule(p: &Pinned, from: u32, to: u32, k: u32) -> Option<&Rule>
    ensures { option_copied result ≡ slice_get (into_rules p.now from to) k }
{
    version_of(p, to)?.into_of(from, k)
}

// ---- the lines

// Without memory the list stays as it was.
fn append(
    alloc: Global,
    lines: &mut Items<Line>,
    view: &[Prop],
    own: &[Line],
) -> Result<(), NoMemory>
    ensures ok { OnOk result (lines.new ≡ lines.old ++ map (moved_line view.now (length lines.old)) own.now) }
    ensures err { OnErr result (lines.new ≡ lines.old) }
{
    let count = lines.len();
    for line in own {
        match push_moved(alloc, lines, view, count, line) {
            Ok(()) => {}
            Err(e) => {
                lines.truncate(count);
                return Err(e);
            }
        }
    }
    Ok(())
}

fn push_moved(
    alloc: Global,
    lines: &mut Items<Line>,
    view: &[Prop],
    count: usize,
    line: &Line,
) -> Result<(), NoMemory>
    ensures ok { OnOk result (lines.new ≡ lines.old ++ moved_line view.now count line.now ∷ []) }
    ensures err { OnErr result (lines.new ≡ lines.old) }
{
    let label = copy_label(alloc, line.label.as_slice())?;
    let why = moved(alloc, view, count, &line.why)?;
    lines.push(Line {
        peer: line.peer,
        label,
        why,
    })
}

fn copy_label(alloc: Global, concepts: &[Concept]) -> Result<Items<Concept>, NoMemory>
    ensures { IfOk result (λ cs. cs ≡ concepts.now) }
{
    let mut copies = Items::new(alloc);
    for c in concepts {
        copies.push(copy(alloc, c)?)?;
    }
    Ok(copies)
}

// The reason with its numbers moved.
fn moved(alloc: Global, view: &[Prop], count: usize, why: &Why) -> Result<Why, NoMemory>
    ensures { IfOk result (λ w. w ≡ moved_why view.now count why.now) }
{
    match why {
        Why::Bottom => Ok(Why::Bottom),
        Why::Clash { name } => Ok(Why::Clash { name: *name }),
        Why::And { at, cite } => {
            let cite = number(view, count, *cite)?;
            Ok(Why::And { at: *at, cite })
        }
        Why::Or { at, left, right } => {
            let left = number(view, count, *left)?;
            let right = number(view, count, *right)?;
            Ok(Why::Or {
                at: *at,
                left,
                right,
            })
        }
        Why::Axiom { index, left, right } => {
            let left = number(view, count, *left)?;
            let right = number(view, count, *right)?;
            Ok(Why::Axiom {
                index: *index,
                left,
                right,
            })
        }
        Why::Cut { on, yes, no } => {
            let yes = number(view, count, *yes)?;
            let no = number(view, count, *no)?;
            Ok(Why::Cut {
                on: copy(alloc, on)?,
                yes,
                no,
            })
        }
        Why::Successor { at, cite } => {
            let cite = number(view, count, *cite)?;
            Ok(Why::Successor { at: *at, cite })
        }
        Why::Bridge {
            from,
            onto,
            into_set,
            cite,
            each,
        } => {
            let cite = number(view, count, *cite)?;
            let each = numbers(alloc, view, count, each.as_slice())?;
            Ok(Why::Bridge {
                from: *from,
                onto: *onto,
                into_set: Items::from_slice(alloc, into_set.as_slice())?,
                cite,
                each,
            })
        }
    }
}

fn numbers(alloc: Global, view: &[Prop], count: usize, ns: &[u32]) -> Result<Items<u32>, NoMemory>
    ensures { IfOk result (λ ms. ms ≡ map (moved_number view.now count) ns.now) }
{
    let mut moved = Items::new(alloc);
    for n in ns {
        moved.push(number(view, count, *n)?)?;
    }
    Ok(moved)
}

// The number of a propagation's line, or that of an own line behind those of the session.
fn number(view: &[Prop], count: usize, n: u32) -> Result<u32, NoMemory>
    ensures { IfOk result (λ m. m ≡ moved_number view.now count n) }
{
    match view.get(n as usize) {
        Some(prop) => Ok(prop.line),
        None => behind(view.len(), count, n),
    }
}

fn behind(views: usize, count: usize, n: u32) -> Result<u32, NoMemory>
    ensures { IfOk result (λ m. m ≡ n - views + count) }
{
    let Some(sum) = (n as usize).saturating_sub(views).checked_add(count) else {
        return Err(NoMemory);
    };
    match u32::try_from(sum) {
        Ok(m) => Ok(m),
        Err(_) => Err(NoMemory),
    }
}
