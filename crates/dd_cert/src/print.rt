ghost use Rattle.std.specs.Prelude.{◌≡◌, ◌<◌, IfOk, IsTrue, length, map, codes};
ghost use Rattle.std.specs.List.{list_all};
ghost use Rattle.serde_json.specs.Data.{member, no_members, object, put, string};
ghost use Rattle.serde_json.specs.View.{view, members_view};
ghost use Rattle.dd_text.specs.Text.{has_symbols, text_at};
ghost use Rattle.dd_cert.specs.Printed.{IsPrintable, cert_value, concept_data, line_data, line_has_symbols, lines_data, list_data, numbers_data, why_data, why_has_symbols, whole_number};
ghost use Rattle.dd_task.specs.declared.line.Why.TheVariants as why;

use crate::parts::{head, numbers, text_value, with, with_number};
use crate::print_world::print_world;
use dd_answer::Answer;
use dd_concept::{Concept, NoMemory};
use dd_task::{Line, Why};
use dd_text::{Symbols, print_concept};
use serde_json::{Map, Value};
use std::alloc::Global;

/// The certificate of a yes or a no. The members of each object stand in the byte order of their names.
pub fn print_cert(alloc: Global, symbols: &Symbols, a: &Answer) -> Result<Value, NoMemory>
    requires { IsPrintable symbols.now a.now }
    ensures { IfOk result (λ v. view v ≡ cert_value symbols.now a.now) }
{
    match a {
        Answer::Yes(lines) => print_lines(alloc, symbols, lines.as_slice()),
        Answer::No(world) => print_world(alloc, symbols, world),
        Answer::RunSpent(_) => unreachable!(),
        Answer::VerdictsSpent(_) => unreachable!(),
        Answer::Memory => unreachable!(),
    }
}

fn print_lines(alloc: Global, symbols: &Symbols, lines: &[Line]) -> Result<Value, NoMemory>
    requires { IsTrue (list_all (line_has_symbols symbols.now) lines.now) }
    ensures { IfOk result (λ v. view v ≡ lines_data symbols.now lines.now) }
{
    let lines = all_lines(alloc, symbols, lines)?;
    let cert = head(alloc, "yes")?;
    Ok(Value::Object(with(alloc, cert, "lines", lines)?))
}

fn all_lines(alloc: Global, symbols: &Symbols, lines: &[Line]) -> Result<Value, NoMemory>
    requires { IsTrue (list_all (line_has_symbols symbols.now) lines.now) }
    ensures { IfOk result (λ v. view v ≡ list_data (map (line_data symbols.now) lines.now)) }
{
    let mut values = Vec::new(alloc);
    for line in lines {
        values.push(print_line(alloc, symbols, line)?)?;
    }
    Ok(Value::Array(values))
}

fn print_line(alloc: Global, symbols: &Symbols, line: &Line) -> Result<Value, NoMemory>
    requires { IsTrue (line_has_symbols symbols.now line.now) }
    ensures { IfOk result (λ v. view v ≡ line_data symbols.now line.now) }
{
    let label = label(alloc, symbols, line.label.as_slice())?;
    let why = print_why(alloc, symbols, &line.why)?;
    let members = with(alloc, Map::new(alloc), "label", label)?;
    let members = with_number(alloc, members, "peer", line.peer)?;
    Ok(Value::Object(with(alloc, members, "why", why)?))
}

fn label(alloc: Global, symbols: &Symbols, concepts: &[Concept]) -> Result<Value, NoMemory>
    requires { IsTrue (list_all (has_symbols symbols.now) concepts.now) }
    ensures { IfOk result (λ v. view v ≡ list_data (map (concept_data symbols.now) concepts.now)) }
{
    let mut values = Vec::new(alloc);
    for concept in concepts {
        values.push(concept_value(alloc, symbols, concept)?)?;
    }
    Ok(Value::Array(values))
}

fn concept_value(alloc: Global, symbols: &Symbols, concept: &Concept) -> Result<Value, NoMemory>
    requires { IsTrue (has_symbols symbols.now concept.now) }
    ensures { IfOk result (λ v. view v ≡ concept_data symbols.now concept.now) }
{
    let _numbering = symbols.mark();
    let text = print_concept(alloc, symbols, concept)?;
    text_value(alloc, text.as_slice())
}

fn name_value(alloc: Global, symbols: &Symbols, name: u32) -> Result<Value, NoMemory>
    requires { name < length symbols.now.names }
    ensures { IfOk result (λ v. view v ≡ string (text_at symbols.now.names name)) }
{
    let _numbering = symbols.mark();
    text_value(alloc, symbols.name(name))
}

// ---- the reason

fn print_why(alloc: Global, symbols: &Symbols, why: &Why) -> Result<Value, NoMemory>
    requires { IsTrue (why_has_symbols symbols.now why.now) }
    ensures { IfOk result (λ v. view v ≡ why_data symbols.now why.now) }
{
    match why {
        Why::Bottom => bottom(alloc),
        Why::Clash { name } => clash(alloc, symbols, *name),
        Why::And { at, cite } => cited(alloc, "and", *at, *cite),
        Why::Or { at, left, right } => disjunct(alloc, *at, *left, *right),
        Why::Axiom { index, left, right } => implication(alloc, *index, *left, *right),
        Why::Cut { on, yes, no } => cut(alloc, symbols, on, *yes, *no),
        Why::Successor { at, cite } => cited(alloc, "successor", *at, *cite),
        Why::Bridge {
            from,
            onto,
            into_set,
            cite,
            each,
        } => bridge(
            alloc,
            *from,
            *onto,
            into_set.as_slice(),
            *cite,
            each.as_slice(),
        ),
    }
}

fn by_rule(alloc: Global, rule: &str) -> Result<Map<String, Value>, NoMemory>
    ensures { IfOk result (λ new. members_view new.entries ≡ member (codes "rule") (string rule.now) no_members) }
{
    let rule = Value::try_from_str(alloc, rule)?;
    with(alloc, Map::new(alloc), "rule", rule)
}

fn bottom(alloc: Global) -> Result<Value, NoMemory>
    ensures { IfOk result (λ v. view v ≡ object (member (codes "rule") (string (codes "bottom")) no_members)) }
{
    Ok(Value::Object(by_rule(alloc, "bottom")?))
}

fn clash(alloc: Global, symbols: &Symbols, name: u32) -> Result<Value, NoMemory>
    requires { name < length symbols.now.names }
    ensures { IfOk result (λ v. view v ≡ why_data symbols.now (why.Clash name)) }
{
    let name = name_value(alloc, symbols, name)?;
    let why = by_rule(alloc, "clash")?;
    Ok(Value::Object(with(alloc, why, "name", name)?))
}

/// A reason with the place of a concept and one cited line.
fn cited(alloc: Global, rule: &str, at: u32, cite: u32) -> Result<Value, NoMemory>
    ensures { IfOk result (λ v. view v ≡ object (member (codes "at") (whole_number at) (member (codes "cite") (whole_number cite) (member (codes "rule") (string rule.now) no_members)))) }
{
    let why = by_rule(alloc, rule)?;
    let why = with_number(alloc, why, "at", at)?;
    Ok(Value::Object(with_number(alloc, why, "cite", cite)?))
}

fn disjunct(alloc: Global, at: u32, left: u32, right: u32) -> Result<Value, NoMemory>
    ensures { IfOk result (λ v. view v ≡ object (member (codes "at") (whole_number at) (member (codes "left") (whole_number left) (member (codes "right") (whole_number right) (member (codes "rule") (string (codes "or")) no_members))))) }
{
    let why = by_rule(alloc, "or")?;
    let why = with_number(alloc, why, "at", at)?;
    let why = with_number(alloc, why, "left", left)?;
    Ok(Value::Object(with_number(alloc, why, "right", right)?))
}

fn implication(alloc: Global, index: u32, left: u32, right: u32) -> Result<Value, NoMemory>
    ensures { IfOk result (λ v. view v ≡ object (member (codes "axiom") (whole_number index) (member (codes "left") (whole_number left) (member (codes "right") (whole_number right) (member (codes "rule") (string (codes "axiom")) no_members))))) }
{
    let why = by_rule(alloc, "axiom")?;
    let why = with_number(alloc, why, "axiom", index)?;
    let why = with_number(alloc, why, "left", left)?;
    Ok(Value::Object(with_number(alloc, why, "right", right)?))
}

fn cut(alloc: Global, symbols: &Symbols, on: &Concept, yes: u32, no: u32) -> Result<Value, NoMemory>
    requires { IsTrue (has_symbols symbols.now on.now) }
    ensures { IfOk result (λ v. view v ≡ why_data symbols.now (why.Cut on.now yes no)) }
{
    let on = concept_value(alloc, symbols, on)?;
    let why = by_rule(alloc, "cut")?;
    let why = with(alloc, why, "on", on)?;
    let why = with_number(alloc, why, "yes", yes)?;
    Ok(Value::Object(with_number(alloc, why, "no", no)?))
}

fn bridge(
    alloc: Global,
    from: u32,
    onto: u32,
    into_set: &[u32],
    cite: u32,
    each: &[u32],
) -> Result<Value, NoMemory>
    ensures { IfOk result (λ v. view v ≡ object (member (codes "cite") (whole_number cite) (member (codes "each") (numbers_data each.now) (member (codes "from") (whole_number from) (member (codes "into") (numbers_data into_set.now) (member (codes "onto") (whole_number onto) (member (codes "rule") (string (codes "bridge")) no_members))))))) }
{
    let why = by_rule(alloc, "bridge")?;
    let why = with_number(alloc, why, "cite", cite)?;
    let why = with_number(alloc, why, "from", from)?;
    let why = with_number(alloc, why, "onto", onto)?;
    let why = with_numbers(alloc, why, "each", each)?;
    Ok(Value::Object(with_numbers(alloc, why, "into", into_set)?))
}

fn with_numbers(
    alloc: Global,
    members: Map<String, Value>,
    name: &str,
    list: &[u32],
) -> Result<Map<String, Value>, NoMemory>
    ensures { IfOk result (λ new. members_view new.entries ≡ put name.now (numbers_data list.now) (members_view members.entries)) }
{
    let list = numbers(alloc, list)?;
    with(alloc, members, name, list)
}
