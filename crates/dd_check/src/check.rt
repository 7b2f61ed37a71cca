// Whether lines derive a query.
ghost use Rattle.std.specs.Prelude.{◌≡◌, ◌<◌, ◌^◌, ◌-◌, ◌↔◌, ◌∷◌, [], IsOk, OnOk, length, map, slice_get};
ghost use Rattle.dd_concept.specs.Same.{has, is_within};
ghost use Rattle.dd_check.specs.Faults.{FirstWrong, IsFault, Judges, says_root};
ghost use Rattle.dd_check.specs.declared.check.LineFault.{LineFault};
ghost use Rattle.dd_task.specs.Claims.{claim_of};
ghost use Rattle.dd_task.specs.Derives.{Derives};
ghost use Rattle.dd_task.specs.Goals.{root_label};
ghost use Rattle.dd_task.specs.Lines.{gives_reason, is_right, is_there};
ghost use Rattle.dd_world.specs.World.{Follows};

use crate::bridge::by_bridge;
use crate::labels::{Form, is_written};
use crate::reasons::{by_and, by_axiom, by_bottom, by_clash, by_cut, by_or, by_successor};
use dd_concept::Concept;
use dd_peer::{PeerVersion, Pinned, Query};
use dd_task::{Line, Why, version_of};

/// Where lines fail to derive a query: the number of the first line that is not right, and the number of lines where all are
/// right but there is none, or the last is not one of the query's peer that speaks of the query's left concept and of the
/// complement of its right one alone.
#[derive(Clone, Copy, Debug, PartialEq, Eq)]
pub struct LineFault {
    pub at: u32,
}

/// Whether the lines derive the query under these versions: the fault where they do not.
///
/// It takes no memory. Each cited label is read once for each line that cites it, and its concepts are looked for in the line's
/// own label; a concept in normal form is compared as it is read off the other, and not made. A bridge walks the rules of its
/// peer once for each concept of the label that it cites from the other peer, and for each rule that it names.
pub fn check_lines(p: &Pinned, q: &Query, lines: &[Line]) -> Result<(), LineFault>
    requires { length lines.now < 2 ^ 32 }
    ensures derives { IsOk result ↔ Derives p.now q.now lines.now }
    ensures fault { (f : LineFault) → (result ≡ Err f) ↔ IsFault p.now q.now lines.now f.at }
    ensures follows { OnOk result (Follows p.now q.now) }
{
    judge(p, q, lines)
}

fn judge(p: &Pinned, q: &Query, lines: &[Line]) -> Result<(), LineFault>
    requires { length lines.now < 2 ^ 32 }
    ensures { Judges p.now q.now lines.now result }
{
    if let Some(at) = first_wrong(p, lines) {
        return Err(LineFault { at });
    }
    if ends_with_root(q, lines) {
        return Ok(());
    }
    Err(LineFault {
        at: lines.len() as u32,
    })
}

// The number of the first line that is not right.
fn first_wrong(p: &Pinned, lines: &[Line]) -> Option<u32>
    requires { length lines.now < 2 ^ 32 }
    ensures { FirstWrong p.now lines.now result }
{
    for k in 0..lines.len() {
        if !is_right_line(p, &lines[..k], &lines[k]) {
            return Some(k as u32);
        }
    }
    None
}

// Whether there is a last line, and it says of the query's peer what the query asks.
fn ends_with_root(q: &Query, lines: &[Line]) -> bool
    ensures { result ≡ is_there (slice_get lines.now (length lines.now - 1)) (says_root q.now) }
{
    match lines.last() {
        Some(line) => line.peer == q.peer && is_within_root(line.label.as_slice(), q),
        None => false,
    }
}

fn is_within_root(label: &[Concept], q: &Query) -> bool
    ensures { result ≡ is_within label.now (root_label q.now) }
{
    label.iter().all(|c| is_in_root(c, q))
}

fn is_in_root(c: &Concept, q: &Query) -> bool
    ensures { result ≡ has (root_label q.now) c.now }
{
    is_written(Form::Normal, &q.left, c) || is_written(Form::Complement, &q.right, c)
}

// Whether the line is right after those before it.
fn is_right_line(p: &Pinned, before: &[Line], line: &Line) -> bool
    ensures { result ≡ is_right p.now (map claim_of before.now) line.now }
{
    match version_of(p, line.peer) {
        Some(version) => has_reason(p, before, version, line),
        None => false,
    }
}

fn has_reason(p: &Pinned, before: &[Line], v: &PeerVersion, line: &Line) -> bool
    ensures { result ≡ gives_reason p.now (map claim_of before.now) line.now.peer v.now line.now.label line.now.why }
{
    let peer = line.peer;
    let label = line.label.as_slice();
    match &line.why {
        Why::Bottom => by_bottom(label),
        Why::Clash { name } => by_clash(label, *name),
        Why::And { at, cite } => by_and(before, peer, label, *at, *cite),
        Why::Or { at, left, right } => by_or(before, peer, label, *at, *left, *right),
        Why::Axiom { index, left, right } => {
            by_axiom(
                before,
                peer,
                v.axioms.as_slice(),
                label,
                *index,
                *left,
                *right,
            )
        }
        Why::Cut { on, yes, no } => by_cut(before, peer, label, on, *yes, *no),
        Why::Successor { at, cite } => by_successor(before, peer, label, *at, *cite),
        Why::Bridge {
            from,
            onto,
            into_set,
            cite,
            each,
        } => by_bridge(
            p,
            before,
            peer,
            v,
            label,
            *from,
            *onto,
            into_set.as_slice(),
            *cite,
            each.as_slice(),
        ),
    }
}
