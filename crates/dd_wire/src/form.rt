ghost use Rattle.std.specs.Prelude.{◌≡◌};
ghost use Rattle.serde_json.specs.View.{view, items_view};
ghost use Rattle.dd_json.specs.Gives.{Gives, GivesSeen};
ghost use Rattle.dd_wire.specs.Forms.{written_of, says, rule_of, rules_of, rules_at, peers_of, put_of, ask_of, check_of, versions_of, form_of};
ghost use Rattle.dd_wire.specs.Steps.{both_rules_of, budgets_of, three_texts_at};

use dd_concept::Items;
use dd_json::{
    ShapeErr, Text, count_of, has, indexes, list, listed, maybe_number, text, texts, wants_members,
};
use serde_json::Value;
use std::alloc::Global;

/// A bridge rule as it is written: the name of the peer that it comes from, and the texts of its concepts.
#[derive(Drop)]
pub struct RuleForm {
    pub from: Text,
    pub source: Text,
    pub target: Text,
}

/// A request as it is written, before a name or a text is looked at.
#[derive(Drop)]
pub enum Form {
    Peers(Items<Text>),
    Put {
        peer: Text,
        axioms: Items<Text>,
        into: Items<RuleForm>,
        onto: Items<RuleForm>,
    },
    Ask {
        peer: Text,
        left: Text,
        right: Text,
        expansions: Option<u64>,
        verdicts: Option<u64>,
    },
    Check {
        peer: Text,
        left: Text,
        right: Text,
        pin: Items<u32>,
        cert: Value,
    },
    Versions,
}

/// The form that a JSON value has, by its member `op`. The certificate of a check is moved out of the value.
pub fn form_at(alloc: Global, value: &mut Value) -> Result<Form, ShapeErr>
    ensures { GivesSeen written_of result (form_of (view value.old)) }
{
    if says(value, "op", "peers") {
        peers(alloc, value)
    } else if says(value, "op", "put") {
        put(alloc, value)
    } else if says(value, "op", "ask") {
        ask(alloc, value)
    } else if says(value, "op", "check") {
        check(alloc, value)
    } else if says(value, "op", "versions") {
        versions(value)
    } else {
        Err(ShapeErr::Shape)
    }
}

/// Whether a member is this string.
pub fn says(value: &Value, key: &str, text: &str) -> bool
    ensures { result ≡ says key.now text.now (view value.now) }
{
    match value.get(key).and_then(Value::as_str) {
        Some(said) => said == text,
        None => false,
    }
}

#[tactic(auto, unfolding(crate::specs::Forms::peers_of))]
fn peers(alloc: Global, value: &Value) -> Result<Form, ShapeErr>
    ensures { GivesSeen written_of result (peers_of (view value.now)) }
{
    let names = texts(alloc, value, "names")?;
    wants_members(value, 2)?;
    Ok(Form::Peers(names))
}

fn put(alloc: Global, value: &Value) -> Result<Form, ShapeErr>
    ensures { GivesSeen written_of result (put_of (view value.now)) }
{
    wants_members(
        value,
        2 + count_of(value, "axioms") + count_of(value, "into") + count_of(value, "onto"),
    )?;
    let peer = text(alloc, value, "peer")?;
    let axioms = listed(alloc, value, "axioms")?;
    let (into, onto) = both_rules(alloc, value)?;
    Ok(Form::Put {
        peer,
        axioms,
        into,
        onto,
    })
}

/// The into rules and the onto rules.
#[tactic(auto, unfolding(crate::specs::Steps::both_rules_of))]
fn both_rules(alloc: Global, value: &Value) -> Result<(Items<RuleForm>, Items<RuleForm>), ShapeErr>
    ensures { Gives result (both_rules_of (view value.now)) }
{
    let into = rules(alloc, value, "into")?;
    let onto = rules(alloc, value, "onto")?;
    Ok((into, onto))
}

fn ask(alloc: Global, value: &Value) -> Result<Form, ShapeErr>
    ensures { GivesSeen written_of result (ask_of (view value.now)) }
{
    let (expansions, verdicts) = budgets(value)?;
    let (peer, left, right) = three_texts(alloc, value, "peer", "left", "right")?;
    Ok(Form::Ask {
        peer,
        left,
        right,
        expansions,
        verdicts,
    })
}

/// The budgets of an ask, which has no other members.
#[tactic(auto, unfolding(crate::specs::Steps::budgets_of))]
fn budgets(value: &Value) -> Result<(Option<u64>, Option<u64>), ShapeErr>
    ensures { Gives result (budgets_of (view value.now)) }
{
    let expansions = maybe_number(value, "expansions")?;
    let verdicts = maybe_number(value, "verdicts")?;
    wants_members(
        value,
        4 + count_of(value, "expansions") + count_of(value, "verdicts"),
    )?;
    Ok((expansions, verdicts))
}

fn check(alloc: Global, value: &mut Value) -> Result<Form, ShapeErr>
    ensures { GivesSeen written_of result (check_of (view value.old)) }
{
    wants_members(value, 6)?;
    let pin = indexes(alloc, value, "pin")?;
    let (peer, left, right) = three_texts(alloc, value, "peer", "left", "right")?;
    match value.get_mut("cert") {
        Some(member) => Ok(Form::Check {
            peer,
            left,
            right,
            pin,
            cert: member.take(),
        }),
        None => Err(ShapeErr::Shape),
    }
}

#[tactic(auto, unfolding(crate::specs::Forms::versions_of))]
fn versions(value: &Value) -> Result<Form, ShapeErr>
    ensures { GivesSeen written_of result (versions_of (view value.now)) }
{
    wants_members(value, 1)?;
    Ok(Form::Versions)
}

/// A member that is a list of rules, or the empty list where it is absent.
fn rules(alloc: Global, value: &Value, key: &str) -> Result<Items<RuleForm>, ShapeErr>
    ensures { Gives result (rules_at key.now (view value.now)) }
{
    if has(value, key) {
        all_rules(alloc, list(value, key)?)
    } else {
        Ok(Items::new(alloc))
    }
}

fn all_rules(alloc: Global, list: &[Value]) -> Result<Items<RuleForm>, ShapeErr>
    ensures { Gives result (rules_of (items_view list.now)) }
{
    let mut found = Items::new(alloc);
    for value in list {
        found.push(rule(alloc, value)?)?;
    }
    Ok(found)
}

fn rule(alloc: Global, value: &Value) -> Result<RuleForm, ShapeErr>
    ensures { Gives result (rule_of (view value.now)) }
{
    wants_members(value, 3)?;
    let (from, source, target) = three_texts(alloc, value, "from", "source", "target")?;
    Ok(RuleForm {
        from,
        source,
        target,
    })
}

/// Three members that are strings.
#[tactic(auto, unfolding(crate::specs::Steps::three_texts_at))]
fn three_texts(
    alloc: Global,
    value: &Value,
    first: &str,
    second: &str,
    third: &str,
) -> Result<(Text, Text, Text), ShapeErr>
    ensures { Gives result (three_texts_at first.now second.now third.now (view value.now)) }
{
    let first = text(alloc, value, first)?;
    let second = text(alloc, value, second)?;
    let third = text(alloc, value, third)?;
    Ok((first, second, third))
}
