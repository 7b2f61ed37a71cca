ghost use Rattle.serde_json.specs.View.{view, items_view};
ghost use Rattle.dd_json.specs.Members.{number_of};
ghost use Rattle.dd_json.specs.Gives.{Gives};
ghost use Rattle.dd_cert.specs.Forms.{each_of};
ghost use Rattle.dd_cert.specs.LineForms.{number_at, numbers_at, rule_named, bottom_of, clash_of, and_of, or_of, axiom_of, cut_of, successor_of, bridge_of, why_by, why_of, why_at, line_of, lines_at};

use crate::form::{LineForm, Rule, WhyForm};
use dd_concept::Items;
use dd_json::{ShapeErr, list, number_in, text, texts, wants_members};
use serde_json::Value;
use std::alloc::Global;

/// The lines of a derivation as they are written in a certificate of kind `yes`.
pub fn lines_in(alloc: Global, value: &Value) -> Result<Items<LineForm>, ShapeErr>
    ensures { Gives result (lines_at (view value.now)) }
{
    lines(alloc, list(value, "lines")?)
}

fn lines(alloc: Global, list: &[Value]) -> Result<Items<LineForm>, ShapeErr>
    ensures { Gives result (each_of line_of (items_view list.now)) }
{
    let mut found = Items::new(alloc);
    for value in list {
        found.push(line(alloc, value)?)?;
    }
    Ok(found)
}

#[tactic(auto, unfolding(crate::specs::LineForms::line_of))]
fn line(alloc: Global, value: &Value) -> Result<LineForm, ShapeErr>
    ensures { Gives result (line_of (view value.now)) }
{
    let label = texts(alloc, value, "label")?;
    let peer = number(value, "peer")?;
    let why = why_in(alloc, value)?;
    wants_members(value, 3)?;
    Ok(LineForm { peer, label, why })
}

fn number(value: &Value, key: &str) -> Result<u64, ShapeErr>
    ensures { Gives result (number_at key.now (view value.now)) }
{
    match value.get(key) {
        Some(member) => number_in(member),
        None => Err(ShapeErr::Shape),
    }
}

fn numbers(alloc: Global, value: &Value, key: &str) -> Result<Items<u64>, ShapeErr>
    ensures { Gives result (numbers_at key.now (view value.now)) }
{
    all_numbers(alloc, list(value, key)?)
}

fn all_numbers(alloc: Global, list: &[Value]) -> Result<Items<u64>, ShapeErr>
    ensures { Gives result (each_of number_of (items_view list.now)) }
{
    let mut found = Items::new(alloc);
    for value in list {
        found.push(number_in(value)?)?;
    }
    Ok(found)
}

// ---- the reason

fn why_in(alloc: Global, value: &Value) -> Result<WhyForm, ShapeErr>
    ensures { Gives result (why_at (view value.now)) }
{
    match value.get("why") {
        Some(member) => why(alloc, member),
        None => Err(ShapeErr::Shape),
    }
}

#[tactic(auto, unfolding(crate::specs::LineForms::why_of))]
fn why(alloc: Global, value: &Value) -> Result<WhyForm, ShapeErr>
    ensures { Gives result (why_of (view value.now)) }
{
    let name = text(alloc, value, "rule")?;
    let rule = rule_named(name.as_slice())?;
    why_by(alloc, rule, value)
}

fn rule_named(name: &[u8]) -> Result<Rule, ShapeErr>
    ensures { Gives result (rule_named name.now) }
{
    if name == b"bottom".as_slice() {
        Ok(Rule::Bottom)
    } else if name == b"clash".as_slice() {
        Ok(Rule::Clash)
    } else if name == b"and".as_slice() {
        Ok(Rule::And)
    } else if name == b"or".as_slice() {
        Ok(Rule::Or)
    } else if name == b"axiom".as_slice() {
        Ok(Rule::Axiom)
    } else if name == b"cut".as_slice() {
        Ok(Rule::Cut)
    } else if name == b"successor".as_slice() {
        Ok(Rule::Successor)
    } else if name == b"bridge".as_slice() {
        Ok(Rule::Bridge)
    } else {
        Err(ShapeErr::Shape)
    }
}

fn why_by(alloc: Global, rule: Rule, value: &Value) -> Result<WhyForm, ShapeErr>
    ensures { Gives result (why_by rule (view value.now)) }
{
    match rule {
        Rule::Bottom => bottom(value),
        Rule::Clash => clash(alloc, value),
        Rule::And => conjunct(value),
        Rule::Or => disjunct(value),
        Rule::Axiom => implication(value),
        Rule::Cut => cut(alloc, value),
        Rule::Successor => successor(value),
        Rule::Bridge => bridge(alloc, value),
    }
}

#[tactic(auto, unfolding(crate::specs::LineForms::bottom_of))]
fn bottom(value: &Value) -> Result<WhyForm, ShapeErr>
    ensures { Gives result (bottom_of (view value.now)) }
{
    wants_members(value, 1)?;
    Ok(WhyForm::Bottom)
}

#[tactic(auto, unfolding(crate::specs::LineForms::clash_of))]
fn clash(alloc: Global, value: &Value) -> Result<WhyForm, ShapeErr>
    ensures { Gives result (clash_of (view value.now)) }
{
    let name = text(alloc, value, "name")?;
    wants_members(value, 2)?;
    Ok(WhyForm::Clash { name })
}

#[tactic(auto, unfolding(crate::specs::LineForms::and_of))]
fn conjunct(value: &Value) -> Result<WhyForm, ShapeErr>
    ensures { Gives result (and_of (view value.now)) }
{
    let at = number(value, "at")?;
    let cite = number(value, "cite")?;
    wants_members(value, 3)?;
    Ok(WhyForm::And { at, cite })
}

#[tactic(auto, unfolding(crate::specs::LineForms::or_of))]
fn disjunct(value: &Value) -> Result<WhyForm, ShapeErr>
    ensures { Gives result (or_of (view value.now)) }
{
    let at = number(value, "at")?;
    let left = number(value, "left")?;
    let right = number(value, "right")?;
    wants_members(value, 4)?;
    Ok(WhyForm::Or { at, left, right })
}

#[tactic(auto, unfolding(crate::specs::LineForms::axiom_of))]
fn implication(value: &Value) -> Result<WhyForm, ShapeErr>
    ensures { Gives result (axiom_of (view value.now)) }
{
    let index = number(value, "axiom")?;
    let left = number(value, "left")?;
    let right = number(value, "right")?;
    wants_members(value, 4)?;
    Ok(WhyForm::Axiom { index, left, right })
}

#[tactic(auto, unfolding(crate::specs::LineForms::cut_of))]
fn cut(alloc: Global, value: &Value) -> Result<WhyForm, ShapeErr>
    ensures { Gives result (cut_of (view value.now)) }
{
    let on = text(alloc, value, "on")?;
    let yes = number(value, "yes")?;
    let no = number(value, "no")?;
    wants_members(value, 4)?;
    Ok(WhyForm::Cut { on, yes, no })
}

#[tactic(auto, unfolding(crate::specs::LineForms::successor_of))]
fn successor(value: &Value) -> Result<WhyForm, ShapeErr>
    ensures { Gives result (successor_of (view value.now)) }
{
    let at = number(value, "at")?;
    let cite = number(value, "cite")?;
    wants_members(value, 3)?;
    Ok(WhyForm::Successor { at, cite })
}

#[tactic(auto, unfolding(crate::specs::LineForms::bridge_of))]
fn bridge(alloc: Global, value: &Value) -> Result<WhyForm, ShapeErr>
    ensures { Gives result (bridge_of (view value.now)) }
{
    let from = number(value, "from")?;
    let onto = number(value, "onto")?;
    let into_set = numbers(alloc, value, "into")?;
    let cite = number(value, "cite")?;
    let each = numbers(alloc, value, "each")?;
    wants_members(value, 6)?;
    Ok(WhyForm::Bridge {
        from,
        onto,
        into_set,
        cite,
        each,
    })
}
