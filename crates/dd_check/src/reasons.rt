// The reasons of lines, but for bridges.
ghost use Rattle.std.specs.Prelude.{◌≡◌, ◌&&◌, ◌∷◌, map, slice_get};
ghost use Rattle.std.specs.List.{list_all};
ghost use Rattle.std.specs.Option.{option_copied, option_map};
ghost use Rattle.dd_check.specs.Parts.{along_of, is_along, pair_of};
ghost use Rattle.dd_concept.specs.Same.{has, is_same};
ghost use Rattle.dd_concept.specs.Successor.{is_passed};
ghost use Rattle.dd_peer.specs.declared.version.PeerVersion.{PeerVersion};
ghost use Rattle.dd_peer.specs.declared.version.Pinned.{Pinned};
ghost use Rattle.dd_task.specs.Claims.{claim_of};
ghost use Rattle.dd_task.specs.Lines.{cites, cites_within, gives_reason, is_there};
ghost use Rattle.dd_task.specs.declared.line.Why.TheVariants as reason;

use crate::labels::{Form, cited_label, cites_with, has_written, is_within_with_both};
use crate::parts::{all_parts, conjuncts, disjuncts, is_not_name, is_one, some_parts};
use crate::size::is_for_cuts;
use dd_concept::{Axiom, Concept, contains};
use dd_task::Line;

/// Whether the label has bottom.
pub(crate) fn by_bottom(label: &[Concept]) -> bool
    ensures { result ≡ has label.now Concept.Bottom }
{
    contains(label, &Concept::Bottom)
}

/// Whether the label has the name and its complement.
pub(crate) fn by_clash(label: &[Concept], name: u32) -> bool
    ensures { result ≡ (has label.now (Concept.Name name) && has label.now (Concept.Not (Concept.Name name))) }
{
    contains(label, &Concept::Name(name)) && has_not_name(label, name)
}

fn has_not_name(label: &[Concept], name: u32) -> bool
    ensures { result ≡ has label.now (Concept.Not (Concept.Name name)) }
{
    label.iter().any(|c| is_no(c, name))
}

fn is_no(c: &Concept, name: u32) -> bool
    ensures { result ≡ is_same c.now (Concept.Not (Concept.Name name)) }
{
    is_not_name(c, name)
}

fn concept_at(label: &[Concept], at: u32) -> Option<&Concept>
    ensures { option_copied result ≡ slice_get label.now at }
{
    label.get(at as usize)
}

/// Whether the line has a conjunction at this place, and the cited line is within its label with both parts.
pub(crate) fn by_and(before: &[Line], peer: u32, label: &[Concept], at: u32, cite: u32) -> bool
    ensures { (p : Pinned) (v : PeerVersion) → result ≡ gives_reason p (map claim_of before.now) peer v label.now (reason.And at cite) }
{
    match concept_at(label, at) {
        Some(c) => and_cites(before, peer, label, conjuncts(c), cite),
        None => false,
    }
}

fn and_cites(
    before: &[Line],
    peer: u32,
    label: &[Concept],
    parts: Option<(&Concept, &Concept)>,
    cite: u32,
) -> bool
    ensures { result ≡ is_there (option_map pair_of parts.entry) (λ t. cites_within (map claim_of before.now) peer cite (t.0 ∷ t.1 ∷ label.now)) }
{
    match parts {
        Some((c, d)) => match cited_label(before, peer, cite) {
            Some(cited) => is_within_with_both(cited, label, c, d),
            None => false,
        },
        None => false,
    }
}

/// Whether the line has a disjunction at this place, and the cited lines are within its label with one part each.
pub(crate) fn by_or(
    before: &[Line],
    peer: u32,
    label: &[Concept],
    at: u32,
    left: u32,
    right: u32,
) -> bool
    ensures { (p : Pinned) (v : PeerVersion) → result ≡ gives_reason p (map claim_of before.now) peer v label.now (reason.Or at left right) }
{
    match concept_at(label, at) {
        Some(c) => or_cites(before, peer, label, disjuncts(c), left, right),
        None => false,
    }
}

fn or_cites(
    before: &[Line],
    peer: u32,
    label: &[Concept],
    parts: Option<(&Concept, &Concept)>,
    left: u32,
    right: u32,
) -> bool
    ensures { result ≡ is_there (option_map pair_of parts.entry) (λ t. cites_within (map claim_of before.now) peer left (t.0 ∷ label.now) && cites_within (map claim_of before.now) peer right (t.1 ∷ label.now)) }
{
    match parts {
        Some((c, d)) => {
            cites_with(before, peer, left, label, Form::Plain, c)
                && cites_with(before, peer, right, label, Form::Plain, d)
        }
        None => false,
    }
}

/// Whether the axiom is there, and the cited lines are within the line's label with the complement of its left side and with
/// its right side.
pub(crate) fn by_axiom(
    before: &[Line],
    peer: u32,
    axioms: &[Axiom],
    label: &[Concept],
    index: u32,
    left: u32,
    right: u32,
) -> bool
    ensures { (p : Pinned) (v : PeerVersion) → v.axioms ≡ axioms.now → result ≡ gives_reason p (map claim_of before.now) peer v label.now (reason.Axiom index left right) }
{
    match axioms.get(index as usize) {
        Some(axiom) => {
            cites_with(before, peer, left, label, Form::Complement, &axiom.left)
                && cites_with(before, peer, right, label, Form::Normal, &axiom.right)
        }
        None => false,
    }
}

/// Whether a cut may be made on the concept, and the cited lines are within the line's label with it and with its complement.
pub(crate) fn by_cut(
    before: &[Line],
    peer: u32,
    label: &[Concept],
    on: &Concept,
    yes: u32,
    no: u32,
) -> bool
    ensures { (p : Pinned) (v : PeerVersion) → result ≡ gives_reason p (map claim_of before.now) peer v label.now (reason.Cut on.now yes no) }
{
    is_for_cuts(on)
        && cites_with(before, peer, yes, label, Form::Normal, on)
        && cites_with(before, peer, no, label, Form::Complement, on)
}

/// Whether the line has an existential restriction at this place, and the cited line has nothing but what an element along its
/// role has.
pub(crate) fn by_successor(
    before: &[Line],
    peer: u32,
    label: &[Concept],
    at: u32,
    cite: u32,
) -> bool
    ensures { (p : Pinned) (v : PeerVersion) → result ≡ gives_reason p (map claim_of before.now) peer v label.now (reason.Successor at cite) }
{
    match concept_at(label, at) {
        Some(c) => successor_cites(before, peer, label, some_parts(c), cite),
        None => false,
    }
}

fn successor_cites(
    before: &[Line],
    peer: u32,
    label: &[Concept],
    part: Option<(u32, &Concept)>,
    cite: u32,
) -> bool
    ensures { result ≡ is_there (option_map along_of part.entry) (λ t. cites (map claim_of before.now) peer cite (λ cited. list_all (is_passed label.now t.0 t.1) cited)) }
{
    match part {
        Some((role, c)) => match cited_label(before, peer, cite) {
            Some(cited) => are_passed(cited, label, role, c),
            None => false,
        },
        None => false,
    }
}

fn are_passed(cited: &[Concept], label: &[Concept], role: u32, c: &Concept) -> bool
    ensures { result ≡ list_all (is_passed label.now role c.now) cited.now }
{
    cited.iter().all(|d| is_passed_on(label, role, c, d))
}

fn is_passed_on(label: &[Concept], role: u32, c: &Concept, d: &Concept) -> bool
    ensures { result ≡ is_passed label.now role c.now d.now }
{
    is_one(c, d) || has_all_of(label, role, d)
}

fn has_all_of(label: &[Concept], role: u32, d: &Concept) -> bool
    ensures { result ≡ has label.now (Concept.HasAll role d.now) }
{
    label.iter().any(|c| is_all_of(c, role, d))
}

fn is_all_of(c: &Concept, role: u32, d: &Concept) -> bool
    ensures { result ≡ is_same c.now (Concept.HasAll role d.now) }
{
    is_one_along(all_parts(c), role, d)
}

// Whether there are a role and a part, and they are these.
fn is_one_along(part: Option<(u32, &Concept)>, role: u32, d: &Concept) -> bool
    ensures { result ≡ is_there (option_map along_of part.entry) (is_along role d.now) }
{
    match part {
        Some((r, e)) => role == r && is_one(d, e),
        None => false,
    }
}
