// Bridges: lines by the rules that a peer keeps from another.
ghost use Rattle.std.specs.Prelude.{◌≡◌, ◌∷◌, ◌&&◌, flat_map, map};
ghost use Rattle.std.specs.Option.{option_copied};
ghost use Rattle.dd_concept.specs.Normal.{nnf_of};
ghost use Rattle.dd_concept.specs.Same.{has, is_within};
ghost use Rattle.dd_peer.specs.Rules.{rules_from};
ghost use Rattle.dd_peer.specs.declared.version.Rule.{Rule};
ghost use Rattle.dd_task.specs.Claims.{claim_of};
ghost use Rattle.dd_task.specs.Goals.{no_source_at};
ghost use Rattle.dd_check.specs.Walked.{any_no_source_from, is_no_source_of};
ghost use Rattle.dd_task.specs.Keys.{is_among};
ghost use Rattle.dd_task.specs.Lines.{cites_targets, cites_within, gives_reason, is_other, is_rising, is_there, rules_at, sources_label};
ghost use Rattle.dd_task.specs.declared.line.Why.TheVariants as reason;

use crate::labels::{Form, cited_label, cites_with, has_written, is_written};
use dd_concept::Concept;
use dd_peer::{PeerVersion, Pinned, Rule};
use dd_task::Line;

/// Whether the bridge is by rules that the peer keeps from another, with their targets in the line's label or in those of the
/// cited lines of the peer, and with their sources in the label of the cited line of the other.
pub(crate) fn by_bridge(
    p: &Pinned,
    before: &[Line],
    peer: u32,
    v: &PeerVersion,
    label: &[Concept],
    from: u32,
    onto: u32,
    into_set: &[u32],
    cite: u32,
    each: &[u32],
) -> bool
    ensures { result ≡ gives_reason p.now (map claim_of before.now) peer v.now label.now (reason.Bridge from onto into_set.now cite each.now) }
{
    if !is_another(p, peer, from) || !rises(into_set) {
        return false;
    }
    match v.onto_of(from, onto) {
        Some(rule) => bridge_cites(before, peer, v, label, rule, from, into_set, cite, each),
        None => false,
    }
}

fn bridge_cites(
    before: &[Line],
    peer: u32,
    v: &PeerVersion,
    label: &[Concept],
    onto: &Rule,
    from: u32,
    into_set: &[u32],
    cite: u32,
    each: &[u32],
) -> bool
    ensures { result ≡ is_there (rules_at (rules_from v.now.into from) into_set.now) (λ into.
        has label.now (nnf_of onto.now.target) && (cites_within (map claim_of before.now) from cite (sources_label onto.now into) && cites_targets (map claim_of before.now) peer label.now into each.now)) }
{
    has_written(label, Form::Normal, &onto.target)
        && cites_each(before, peer, v, label, onto, from, into_set, cite, each)
}

fn cites_each(
    before: &[Line],
    peer: u32,
    v: &PeerVersion,
    label: &[Concept],
    onto: &Rule,
    from: u32,
    into_set: &[u32],
    cite: u32,
    each: &[u32],
) -> bool
    ensures { result ≡ is_there (rules_at (rules_from v.now.into from) into_set.now) (λ into.
        cites_within (map claim_of before.now) from cite (sources_label onto.now into) && cites_targets (map claim_of before.now) peer label.now into each.now) }
{
    cites_sources(before, v, onto, from, into_set, cite)
        && cites_all(before, peer, label, v, from, into_set, each)
}

fn is_another(p: &Pinned, peer: u32, from: u32) -> bool
    ensures { result ≡ is_other p.now peer from }
{
    (from as usize) < p.peers.as_slice().len() && from != peer
}

// Whether the numbers rise strictly.
fn rises(numbers: &[u32]) -> bool
    ensures { result ≡ is_rising numbers.now }
{
    for k in 1..numbers.len() {
        if numbers[k] <= numbers[k - 1] {
            return false;
        }
    }
    true
}

// Whether the cited line says of the other peer that no element is in the source of the onto rule and in none of the into rules'.
fn cites_sources(
    before: &[Line],
    v: &PeerVersion,
    onto: &Rule,
    from: u32,
    into_set: &[u32],
    cite: u32,
) -> bool
    ensures { result ≡ cites_within (map claim_of before.now) from cite (nnf_of onto.now.source ∷ flat_map (no_source_at (rules_from v.now.into from)) into_set.now) }
{
    match cited_label(before, from, cite) {
        Some(cited) => are_sources(cited, v, onto, from, into_set),
        None => false,
    }
}

fn are_sources(cited: &[Concept], v: &PeerVersion, onto: &Rule, from: u32, into_set: &[u32]) -> bool
    ensures { result ≡ is_within cited.now (nnf_of onto.now.source ∷ flat_map (no_source_at (rules_from v.now.into from)) into_set.now) }
{
    cited.iter().all(|c| is_source(v, onto, from, into_set, c))
}

fn is_source(v: &PeerVersion, onto: &Rule, from: u32, into_set: &[u32], c: &Concept) -> bool
    ensures { result ≡ has (nnf_of onto.now.source ∷ flat_map (no_source_at (rules_from v.now.into from)) into_set.now) c.now }
{
    is_written(Form::Normal, &onto.source, c) || is_no_source(v.into.as_slice(), from, into_set, c)
}

fn is_no_source(rules: &[Rule], from: u32, into_set: &[u32], c: &Concept) -> bool
    ensures { result ≡ has (flat_map (no_source_at (rules_from rules.now from)) into_set.now) c.now }
{
    any_no_source(rules, from, into_set, c)
}

// Whether the concept is the complement of the source of a rule from the peer, in normal form, and the rule's position is in the set.
fn any_no_source(rules: &[Rule], from: u32, into_set: &[u32], c: &Concept) -> bool
    ensures { result ≡ any_no_source_from into_set.now c.now 0 (rules_from rules.now from) }
{
    let mut position = 0usize;
    for rule in rules {
        if rule.from == from {
            if is_no_source_at(rule, position, into_set, c) {
                return true;
            }
            position += 1;
        }
    }
    false
}

fn is_no_source_at(rule: &Rule, position: usize, into_set: &[u32], c: &Concept) -> bool
    ensures { result ≡ (is_no_source_of c.now rule.now && is_among into_set.now position) }
{
    is_written(Form::Complement, &rule.source, c) && has_position(into_set, position)
}

fn has_position(into_set: &[u32], position: usize) -> bool
    ensures { result ≡ is_among into_set.now position }
{
    into_set.iter().any(|k| *k as usize == position)
}

// Whether all rules are there, and for each a line of the peer is cited within the label with the rule's target.
fn cites_all(
    before: &[Line],
    peer: u32,
    label: &[Concept],
    v: &PeerVersion,
    from: u32,
    into_set: &[u32],
    each: &[u32],
) -> bool
    ensures { result ≡ is_there (rules_at (rules_from v.now.into from) into_set.now) (λ into. cites_targets (map claim_of before.now) peer label.now into each.now) }
{
    if into_set.len() != each.len() {
        return false;
    }
    for k in 0..into_set.len() {
        if !cites_target(before, peer, label, v.into_of(from, into_set[k]), each[k]) {
            return false;
        }
    }
    true
}

fn cites_target(before: &[Line], peer: u32, label: &[Concept], rule: Option<&Rule>, n: u32) -> bool
    ensures { result ≡ is_there (option_copied rule.entry) (λ (r : Rule). cites_within (map claim_of before.now) peer n (nnf_of r.target ∷ label.now)) }
{
    match rule {
        Some(rule) => cites_with(before, peer, n, label, Form::Normal, &rule.target),
        None => false,
    }
}
