//! Lines written down in the concepts of the peer, as certificates have them.
ghost use Rattle.std.specs.Prelude.{◌≡◌, ◌<◌, ◌+◌, ◌∷◌, ℕ, [], All, List, IfOk, IfSome, Some, length, map, slice_get, true};
ghost use Rattle.dd_graph.specs.View.{rules_at, view_of};
ghost use Rattle.dd_rules.specs.Compiled.{concept_at};
ghost use Rattle.dd_rules.specs.Forced.{is_clash};
ghost use Rattle.dd_set.specs.Sets.{numbers};
ghost use Rattle.dd_set.specs.Words.{has};
ghost use Rattle.dd_task.specs.Rules.{onto_rules};
ghost use Rattle.dd_close.specs.Drafts.{IsBook, IsByAnd, IsByChoice, IsBySuccessor, IsReason};
ghost use Rattle.dd_close.specs.Fits.{IsGraphFor};
ghost use Rattle.dd_rules.specs.declared.shape.Step.TheVariants as way;
ghost use Rattle.dd_close.specs.Writes.{AreWritten, IsLineOf, IsVersionOf, IsWhy};

use crate::draft::{Book, Reason};
use dd_concept::{Concept, Items, copy};
use dd_graph::Graph;
use dd_peer::{PeerVersion, Pinned, Rule};
use dd_rules::{Clash, Step};
use dd_set::{NoMemory, numbers_in};
use dd_table::LabelView;
use dd_task::{Line, Prop, Why};
use std::alloc::Global;

/// The concepts with these numbers.
fn concepts_of(alloc: Global, g: &Graph, ns: &[u32]) -> Result<Items<Concept>, NoMemory>
    requires { All (λ n. n < length (view_of g.now).closure.concepts) ns.now }
    ensures { IfOk result (λ cs. cs ≡ map (concept_at (view_of g.now).closure.concepts) ns.now) }
{
    let mut concepts = Items::new(alloc);
    for n in ns {
        concepts.push(concept_of(alloc, g, *n)?)?;
    }
    Ok(concepts)
}

fn concept_of(alloc: Global, g: &Graph, n: u32) -> Result<Concept, NoMemory>
    requires { n < length (view_of g.now).closure.concepts }
    ensures { IfOk result (λ c. c ≡ concept_at (view_of g.now).closure.concepts n) }
{
    g.compiled().concept(alloc, n)
}

/// The place of the number in the list.
fn place_of(ns: &[u32], n: u32) -> Option<u32>
    ensures some { IfSome result (λ i. slice_get ns.now i ≡ Some n) }
{
    for i in 0..ns.len() {
        if ns[i] == n {
            return match u32::try_from(i) {
                Ok(place) => Some(place),
                Err(_) => None,
            };
        }
    }
    None
}

/// The number of an earlier line, behind the claims of the view.
fn shifted(view: &[Prop], line: u32) -> Result<u32, NoMemory>
    ensures { IfOk result (λ n. n ≡ length view.now + line) }
{
    let Ok(first) = u32::try_from(view.len()) else {
        return Err(NoMemory);
    };
    match first.checked_add(line) {
        Some(n) => Ok(n),
        None => Err(NoMemory),
    }
}

/// The numbers of earlier lines, behind the claims of the view.
fn all_shifted(alloc: Global, view: &[Prop], lines: &[u32]) -> Result<Items<u32>, NoMemory>
    ensures { IfOk result (λ ns. ns ≡ map (λ m. length view.now + m) lines.now) }
{
    let mut shifted_lines = Items::new(alloc);
    for line in lines {
        shifted_lines.push(shifted(view, *line)?)?;
    }
    Ok(shifted_lines)
}

/// The first propagation with this onto target, by its place.
fn prop_of(props: &[(u32, u32, Items<u32>)], on: u32) -> Option<u32>
    ensures { IfSome result (λ j. (t : ℕ × ℕ × List ℕ) × (slice_get props.now j ≡ Some t) × (t.0 ≡ on)) }
{
    for j in 0..props.len() {
        if props[j].0 == on {
            return match u32::try_from(j) {
                Ok(place) => Some(place),
                Err(_) => None,
            };
        }
    }
    None
}

/// The reason of a clash.
fn why_clash(
    _p: &Pinned,
    g: &Graph,
    _peer: u32,
    _version: &PeerVersion,
    view: &[Prop],
    book: &Book,
    _line: u32,
    label: &LabelView,
    clash: Clash,
) -> Why
    requires fits { IsGraphFor _p.now _peer view.now (view_of g.now) }
    requires version { IsVersionOf _p.now _peer _version.now }
    requires by { is_clash (rules_at (view_of g.now)) (has label.now.words) clash ≡ true }
    ensures { IsWhy _p.now _peer view.now _version.now (view_of g.now) book.now.table.list _line label.now.words result }
{
    g.known();
    match clash {
        Clash::Bottom => Why::Bottom,
        Clash::Name(name) => Why::Clash { name },
    }
}

/// The reason of a conjunction.
fn why_and(
    _p: &Pinned,
    g: &Graph,
    _peer: u32,
    _version: &PeerVersion,
    view: &[Prop],
    book: &Book,
    _line: u32,
    label: &LabelView,
    ns: &[u32],
    at: u32,
    cite: u32,
) -> Result<Why, NoMemory>
    requires fits { IsGraphFor _p.now _peer view.now (view_of g.now) }
    requires version { IsVersionOf _p.now _peer _version.now }
    requires by { IsByAnd (rules_at (view_of g.now)) book.now.table.list _line (has label.now.words) at cite }
    requires numbers { ns.now ≡ numbers label.now.words (length (view_of g.now).closure.concepts) }
    ensures { IfOk result (IsWhy _p.now _peer view.now _version.now (view_of g.now) book.now.table.list _line label.now.words) }
{
    g.known();
    let Some(place) = place_of(ns, at) else {
        return Err(NoMemory);
    };
    let cite = shifted(view, cite)?;
    Ok(Why::And { at: place, cite })
}

/// The reason of a restriction.
fn why_successor(
    _p: &Pinned,
    g: &Graph,
    _peer: u32,
    _version: &PeerVersion,
    view: &[Prop],
    book: &Book,
    _line: u32,
    label: &LabelView,
    ns: &[u32],
    at: u32,
    cite: u32,
) -> Result<Why, NoMemory>
    requires fits { IsGraphFor _p.now _peer view.now (view_of g.now) }
    requires version { IsVersionOf _p.now _peer _version.now }
    requires by { IsBySuccessor (rules_at (view_of g.now)) book.now.table.list _line (has label.now.words) at cite }
    requires numbers { ns.now ≡ numbers label.now.words (length (view_of g.now).closure.concepts) }
    ensures { IfOk result (IsWhy _p.now _peer view.now _version.now (view_of g.now) book.now.table.list _line label.now.words) }
{
    g.known();
    let Some(place) = place_of(ns, at) else {
        return Err(NoMemory);
    };
    let cite = shifted(view, cite)?;
    Ok(Why::Successor { at: place, cite })
}

/// The reason of a disjunction.
fn why_or(
    _p: &Pinned,
    g: &Graph,
    _peer: u32,
    _version: &PeerVersion,
    view: &[Prop],
    book: &Book,
    _line: u32,
    label: &LabelView,
    ns: &[u32],
    at: u32,
    left: u32,
    right: u32,
) -> Result<Why, NoMemory>
    requires fits { IsGraphFor _p.now _peer view.now (view_of g.now) }
    requires version { IsVersionOf _p.now _peer _version.now }
    requires by { IsByChoice (rules_at (view_of g.now)) book.now.table.list _line (has label.now.words) (way.Or at) (left ∷ right ∷ []) }
    requires numbers { ns.now ≡ numbers label.now.words (length (view_of g.now).closure.concepts) }
    ensures { IfOk result (IsWhy _p.now _peer view.now _version.now (view_of g.now) book.now.table.list _line label.now.words) }
{
    g.known();
    let Some(place) = place_of(ns, at) else {
        return Err(NoMemory);
    };
    let left = shifted(view, left)?;
    let right = shifted(view, right)?;
    Ok(Why::Or {
        at: place,
        left,
        right,
    })
}

/// The reason of an axiom.
fn why_axiom(
    _p: &Pinned,
    g: &Graph,
    _peer: u32,
    _version: &PeerVersion,
    view: &[Prop],
    book: &Book,
    _line: u32,
    label: &LabelView,
    index: u32,
    left: u32,
    right: u32,
) -> Result<Why, NoMemory>
    requires fits { IsGraphFor _p.now _peer view.now (view_of g.now) }
    requires version { IsVersionOf _p.now _peer _version.now }
    requires by { IsByChoice (rules_at (view_of g.now)) book.now.table.list _line (has label.now.words) (way.Axiom index) (left ∷ right ∷ []) }
    ensures { IfOk result (IsWhy _p.now _peer view.now _version.now (view_of g.now) book.now.table.list _line label.now.words) }
{
    g.known();
    let left = shifted(view, left)?;
    let right = shifted(view, right)?;
    Ok(Why::Axiom { index, left, right })
}

/// The onto rule of a propagation of the view.
fn onto_rule<'a>(version: &'a PeerVersion, prop: &Prop, _p: &Pinned, _peer: u32) -> &'a Rule
    requires version { IsVersionOf _p.now _peer version.now }
    requires there { prop.now.onto < length (onto_rules _p.now prop.now.from _peer) }
    ensures { slice_get (onto_rules _p.now prop.now.from _peer) prop.now.onto ≡ Some result.now }
{
    match version.onto_of(prop.from, prop.onto) {
        Some(rule) => rule,
        None => unreachable!(),
    }
}

/// The reason of a cut: the target is that of the onto rule, as the version has it.
fn why_cut(
    alloc: Global,
    _p: &Pinned,
    g: &Graph,
    _peer: u32,
    _version: &PeerVersion,
    view: &[Prop],
    book: &Book,
    _line: u32,
    label: &LabelView,
    on: u32,
    left: u32,
    right: u32,
) -> Result<Why, NoMemory>
    requires fits { IsGraphFor _p.now _peer view.now (view_of g.now) }
    requires version { IsVersionOf _p.now _peer _version.now }
    requires by { IsByChoice (rules_at (view_of g.now)) book.now.table.list _line (has label.now.words) (way.Cut on) (left ∷ right ∷ []) }
    ensures { IfOk result (IsWhy _p.now _peer view.now _version.now (view_of g.now) book.now.table.list _line label.now.words) }
{
    g.known();
    let Some(j) = prop_of(g.props().list.as_slice(), on) else {
        return Err(NoMemory);
    };
    let rule = onto_rule(_version, prop_at(view, j), _p, _peer);
    let yes = shifted(view, left)?;
    let no = shifted(view, right)?;
    let on = copy(alloc, &rule.target)?;
    Ok(Why::Cut { on, yes, no })
}

fn prop_at(view: &[Prop], j: u32) -> &Prop
    requires { j < length view.now }
    ensures { slice_get view.now j ≡ Some result.now }
{
    &view[j as usize]
}

/// The reason of a bridge.
fn why_bridge(
    alloc: Global,
    _p: &Pinned,
    g: &Graph,
    _peer: u32,
    _version: &PeerVersion,
    view: &[Prop],
    book: &Book,
    _line: u32,
    label: &LabelView,
    prop: u32,
    cites: &[u32],
) -> Result<Why, NoMemory>
    requires fits { IsGraphFor _p.now _peer view.now (view_of g.now) }
    requires version { IsVersionOf _p.now _peer _version.now }
    requires by { IsByChoice (rules_at (view_of g.now)) book.now.table.list _line (has label.now.words) (way.Bridge prop) cites.now }
    ensures { IfOk result (IsWhy _p.now _peer view.now _version.now (view_of g.now) book.now.table.list _line label.now.words) }
{
    g.known();
    let t = prop_at(view, prop);
    let into_set = Items::from_slice(alloc, t.into_set.as_slice())?;
    let each = all_shifted(alloc, view, cites)?;
    Ok(Why::Bridge {
        from: t.from,
        onto: t.onto,
        into_set,
        cite: prop,
        each,
    })
}

/// The reason of a step.
fn why_choice(
    alloc: Global,
    _p: &Pinned,
    g: &Graph,
    _peer: u32,
    _version: &PeerVersion,
    view: &[Prop],
    book: &Book,
    _line: u32,
    label: &LabelView,
    ns: &[u32],
    step: Step,
    cites: &[u32],
) -> Result<Why, NoMemory>
    requires fits { IsGraphFor _p.now _peer view.now (view_of g.now) }
    requires version { IsVersionOf _p.now _peer _version.now }
    requires by { IsByChoice (rules_at (view_of g.now)) book.now.table.list _line (has label.now.words) step cites.now }
    requires numbers { ns.now ≡ numbers label.now.words (length (view_of g.now).closure.concepts) }
    ensures { IfOk result (IsWhy _p.now _peer view.now _version.now (view_of g.now) book.now.table.list _line label.now.words) }
{
    g.known();
    if let Step::Bridge { prop } = step {
        return why_bridge(
            alloc, _p, g, _peer, _version, view, book, _line, label, prop, cites,
        );
    }
    if cites.len() != 2 {
        return Err(NoMemory);
    }
    let left = cites[0];
    let right = cites[1];
    match step {
        Step::Or { at } => why_or(
            _p, g, _peer, _version, view, book, _line, label, ns, at, left, right,
        ),
        Step::Axiom { index } => why_axiom(
            _p, g, _peer, _version, view, book, _line, label, index, left, right,
        ),
        Step::Cut { on } => why_cut(
            alloc, _p, g, _peer, _version, view, book, _line, label, on, left, right,
        ),
        _ => unreachable!(),
    }
}

/// The reason of the line with this number and this label.
fn why_of(
    alloc: Global,
    _p: &Pinned,
    g: &Graph,
    _peer: u32,
    _version: &PeerVersion,
    view: &[Prop],
    book: &Book,
    _line: u32,
    label: &LabelView,
    ns: &[u32],
    reason: &Reason,
) -> Result<Why, NoMemory>
    requires fits { IsGraphFor _p.now _peer view.now (view_of g.now) }
    requires version { IsVersionOf _p.now _peer _version.now }
    requires by { IsReason (rules_at (view_of g.now)) book.now.table.list _line (has label.now.words) reason.now }
    requires numbers { ns.now ≡ numbers label.now.words (length (view_of g.now).closure.concepts) }
    ensures { IfOk result (IsWhy _p.now _peer view.now _version.now (view_of g.now) book.now.table.list _line label.now.words) }
{
    match reason {
        Reason::Clash(clash) => Ok(why_clash(
            _p, g, _peer, _version, view, book, _line, label, *clash,
        )),
        Reason::And { at, cite } => {
            why_and(
                _p, g, _peer, _version, view, book, _line, label, ns, *at, *cite,
            )
        }
        Reason::Choice { step, cites } => why_choice(
            alloc,
            _p,
            g,
            _peer,
            _version,
            view,
            book,
            _line,
            label,
            ns,
            *step,
            cites.as_slice(),
        ),
        Reason::Successor { at, cite } => {
            why_successor(
                _p, g, _peer, _version, view, book, _line, label, ns, *at, *cite,
            )
        }
    }
}

/// The reason of the line with this number.
fn reason_at<'a>(book: &'a Book, line: u32) -> &'a Reason
    requires { line < length book.now.reasons.items }
    ensures { slice_get book.now.reasons.items line ≡ Some result.now }
{
    &book.reasons[line as usize]
}

/// The line with this number.
fn line_of(
    alloc: Global,
    p: &Pinned,
    g: &Graph,
    peer: u32,
    version: &PeerVersion,
    view: &[Prop],
    book: &Book,
    line: u32,
) -> Result<Line, NoMemory>
    requires fits { IsGraphFor p.now peer view.now (view_of g.now) }
    requires version { IsVersionOf p.now peer version.now }
    requires book { IsBook (view_of g.now) book.now }
    requires there { line < length book.now.table.list }
    ensures { IfOk result (IsLineOf p.now peer view.now version.now (view_of g.now) book.now.table.list line) }
{
    let label = book.table.label(line);
    let ns = numbers_in(alloc, label.width(), label.words())?;
    let concepts = concepts_of(alloc, g, &ns)?;
    let reason = reason_at(book, line);
    let why = why_of(
        alloc, p, g, peer, version, view, book, line, &label, &ns, reason,
    )?;
    Ok(Line {
        peer,
        label: concepts,
        why,
    })
}

/// The lines up to this one.
pub(crate) fn write_lines(
    alloc: Global,
    p: &Pinned,
    g: &Graph,
    peer: u32,
    version: &PeerVersion,
    view: &[Prop],
    book: &Book,
    last: u32,
) -> Result<Vec<Line>, NoMemory>
    requires fits { IsGraphFor p.now peer view.now (view_of g.now) }
    requires version { IsVersionOf p.now peer version.now }
    requires book { IsBook (view_of g.now) book.now }
    requires there { last < length book.now.table.list }
    ensures { IfOk result (λ lines. AreWritten p.now peer view.now (view_of g.now) book.now.table.list (last + 1) lines.items) }
{
    let _count = book.table.len();
    let mut lines = Vec::new(alloc);
    let mut k = 0u32;
    while k <= last {
        lines.push(line_of(alloc, p, g, peer, version, view, book, k)?)?;
        k += 1;
    }
    Ok(lines)
}
