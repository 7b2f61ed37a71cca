ghost use Rattle.std.specs.Prelude.{◌≡◌, ◌<◌, ◌≤◌, Err, IfOk, IsTrue, OnErr, OnOk, map};
ghost use Rattle.std.specs.List.{list_all};
ghost use Rattle.dd_text.specs.Symbols.{Grows, symbol_count};
ghost use Rattle.dd_text.specs.Text.{concept_of, with_term};
ghost use Rattle.dd_cert.specs.Derivations.{AllReadable, IsReadable, SpellsLine, SpellsSmall, SpellsWhy, concept, line_by, name, pieces_of, pieces_of_line, pieces_of_why, why_by, with_line, with_why};
ghost use Rattle.dd_cert.specs.Steps.{AreBuilt, AreFull, HasRoomErr, IsBuilt, IsFull, fits, line_fits, why_fits, unread_of};
ghost use Rattle.dd_cert.specs.declared.form.WhyForm.TheVariants as form;

use crate::add::AddErr;
use crate::form::{LineForm, WhyForm};
use dd_concept::{Concept, Items, NoMemory};
use dd_json::Text;
use dd_task::{Line, Why};
use dd_text::{CERT, NameErr, Symbols, TextErr, read_concept};
use std::alloc::Global;

/// The lines of forms whose texts are what they have to be and whose numbers are not too large. Their new symbols are added
/// in reading order; an error leaves the symbols as they were.
pub fn certify_lines(
    alloc: Global,
    symbols: &mut Symbols,
    forms: &[LineForm],
) -> Result<Items<Line>, AddErr>
    requires readable { AllReadable (pieces_of forms.now) }
    requires fit { IsTrue (list_all line_fits forms.now) }
    ensures lines { IfOk result (AreBuilt SpellsLine with_line line_by symbols.old forms.now symbols.new) }
    ensures few { OnOk result (symbol_count symbols.new ≤ 65536) }
    ensures full { result ≡ Err AddErr.SymbolsFull → AreFull SpellsLine with_line symbols.old forms.now }
    ensures err { OnErr result (symbols.new ≡ symbols.old) }
{
    let before = symbols.mark();
    match add_lines(alloc, symbols, forms) {
        Ok(lines) => {
            let _room = symbols.mark();
            Ok(lines)
        }
        Err(e) => {
            symbols.back(before);
            Err(e)
        }
    }
}

/// After an error, here as below, the symbols are those from before with others behind them.
fn add_lines(
    alloc: Global,
    symbols: &mut Symbols,
    forms: &[LineForm],
) -> Result<Items<Line>, AddErr>
    requires readable { AllReadable (pieces_of forms.now) }
    requires fit { IsTrue (list_all line_fits forms.now) }
    ensures lines { IfOk result (AreBuilt SpellsLine with_line line_by symbols.old forms.now symbols.new) }
    ensures full { result ≡ Err AddErr.SymbolsFull → AreFull SpellsLine with_line symbols.old forms.now }
    ensures grows { Grows symbols.old symbols.new }
{
    let mut built = Items::new(alloc);
    for form in forms {
        match add_line(alloc, symbols, form) {
            Ok(line) => {
                if built.push(line).is_err() {
                    return Err(AddErr::NoMemory);
                }
            }
            Err(e) => return Err(e),
        }
    }
    Ok(built)
}

fn add_line(alloc: Global, symbols: &mut Symbols, form: &LineForm) -> Result<Line, AddErr>
    requires readable { AllReadable (pieces_of_line form.now) }
    requires fit { IsTrue (line_fits form.now) }
    ensures line { IfOk result (IsBuilt SpellsLine with_line line_by symbols.old form.now symbols.new) }
    ensures full { result ≡ Err AddErr.SymbolsFull → IsFull SpellsLine with_line symbols.old form.now }
    ensures grows { Grows symbols.old symbols.new }
{
    let label = match add_label(alloc, symbols, form.label.as_slice()) {
        Ok(label) => label,
        Err(e) => return Err(e),
    };
    match add_why(alloc, symbols, &form.why) {
        Ok(why) => Ok(Line {
            peer: form.peer as u32,
            label,
            why,
        }),
        Err(e) => {
            drop(label);
            Err(e)
        }
    }
}

fn add_label(alloc: Global, symbols: &mut Symbols, texts: &[Text]) -> Result<Items<Concept>, AddErr>
    requires { AllReadable (map concept texts.now) }
    ensures label { IfOk result (AreBuilt SpellsSmall with_term concept_of symbols.old texts.now symbols.new) }
    ensures full { result ≡ Err AddErr.SymbolsFull → AreFull SpellsSmall with_term symbols.old texts.now }
    ensures grows { Grows symbols.old symbols.new }
{
    let mut built = Items::new(alloc);
    for text in texts {
        match add_concept(alloc, symbols, text.as_slice()) {
            Ok(concept) => {
                if built.push(concept).is_err() {
                    return Err(AddErr::NoMemory);
                }
            }
            Err(e) => return Err(e),
        }
    }
    Ok(built)
}

fn add_concept(alloc: Global, symbols: &mut Symbols, text: &[u8]) -> Result<Concept, AddErr>
    requires { IsReadable (concept text.now) }
    ensures concept { IfOk result (IsBuilt SpellsSmall with_term concept_of symbols.old text.now symbols.new) }
    ensures full { result ≡ Err AddErr.SymbolsFull → IsFull SpellsSmall with_term symbols.old text.now }
    ensures grows { Grows symbols.old symbols.new }
{
    match read_concept(alloc, symbols, CERT, text) {
        Ok(c) => Ok(c),
        Err(e) => Err(unread(e)),
    }
}

fn unread(e: TextErr) -> AddErr
    requires { HasRoomErr e }
    ensures { result ≡ unread_of e }
{
    match e {
        TextErr::SymbolsFull => AddErr::SymbolsFull,
        TextErr::NoMemory => AddErr::NoMemory,
        _ => unreachable!(),
    }
}

// ---- the reason

fn add_why(alloc: Global, symbols: &mut Symbols, why: &WhyForm) -> Result<Why, AddErr>
    requires readable { AllReadable (pieces_of_why why.now) }
    requires fit { IsTrue (why_fits why.now) }
    ensures why { IfOk result (IsBuilt SpellsWhy with_why why_by symbols.old why.now symbols.new) }
    ensures full { result ≡ Err AddErr.SymbolsFull → IsFull SpellsWhy with_why symbols.old why.now }
    ensures grows { Grows symbols.old symbols.new }
{
    match why {
        WhyForm::Bottom => Ok(Why::Bottom),
        WhyForm::Clash { name } => add_clash(alloc, symbols, name.as_slice()),
        WhyForm::And { at, cite } => Ok(Why::And {
            at: *at as u32,
            cite: *cite as u32,
        }),
        WhyForm::Or { at, left, right } => Ok(Why::Or {
            at: *at as u32,
            left: *left as u32,
            right: *right as u32,
        }),
        WhyForm::Axiom { index, left, right } => Ok(Why::Axiom {
            index: *index as u32,
            left: *left as u32,
            right: *right as u32,
        }),
        WhyForm::Cut { on, yes, no } => add_cut(alloc, symbols, on.as_slice(), *yes, *no),
        WhyForm::Successor { at, cite } => Ok(Why::Successor {
            at: *at as u32,
            cite: *cite as u32,
        }),
        WhyForm::Bridge {
            from,
            onto,
            into_set,
            cite,
            each,
        } => match bridge(
            alloc,
            *from,
            *onto,
            into_set.as_slice(),
            *cite,
            each.as_slice(),
        ) {
            Ok(why) => Ok(why),
            Err(_) => Err(AddErr::NoMemory),
        },
    }
}

fn add_clash(alloc: Global, symbols: &mut Symbols, text: &[u8]) -> Result<Why, AddErr>
    requires { IsReadable (name text.now) }
    ensures why { IfOk result (IsBuilt SpellsWhy with_why why_by symbols.old (form.Clash text.now) symbols.new) }
    ensures full { result ≡ Err AddErr.SymbolsFull → IsFull SpellsWhy with_why symbols.old (form.Clash text.now) }
    ensures grows { Grows symbols.old symbols.new }
{
    match symbols.add_name(alloc, text) {
        Ok(name) => Ok(Why::Clash { name }),
        Err(NameErr::SymbolsFull) => Err(AddErr::SymbolsFull),
        Err(NameErr::NoMemory) => Err(AddErr::NoMemory),
        Err(NameErr::Bad) => unreachable!(),
    }
}

fn add_cut(
    alloc: Global,
    symbols: &mut Symbols,
    text: &[u8],
    yes: u64,
    no: u64,
) -> Result<Why, AddErr>
    requires readable { IsReadable (concept text.now) }
    requires yes { yes ≤ 4294967295 }
    requires no { no ≤ 4294967295 }
    ensures why { IfOk result (IsBuilt SpellsWhy with_why why_by symbols.old (form.Cut text.now yes no) symbols.new) }
    ensures full { result ≡ Err AddErr.SymbolsFull → IsFull SpellsWhy with_why symbols.old (form.Cut text.now yes no) }
    ensures grows { Grows symbols.old symbols.new }
{
    match add_concept(alloc, symbols, text) {
        Ok(on) => Ok(Why::Cut {
            on,
            yes: yes as u32,
            no: no as u32,
        }),
        Err(e) => Err(e),
    }
}

fn bridge(
    alloc: Global,
    from: u64,
    onto: u64,
    into_set: &[u64],
    cite: u64,
    each: &[u64],
) -> Result<Why, NoMemory>
    requires fit { IsTrue (why_fits (form.Bridge from onto into_set.now cite each.now)) }
    ensures { IfOk result (λ w. w ≡ Why.Bridge from onto into_set.now cite each.now) }
{
    let into_set = indexes(alloc, into_set)?;
    let each = indexes(alloc, each)?;
    Ok(Why::Bridge {
        from: from as u32,
        onto: onto as u32,
        into_set,
        cite: cite as u32,
        each,
    })
}

fn indexes(alloc: Global, numbers: &[u64]) -> Result<Items<u32>, NoMemory>
    requires { IsTrue (list_all fits numbers.now) }
    ensures { IfOk result (λ built. built ≡ numbers.now) }
{
    let mut built = Items::new(alloc);
    for n in numbers {
        built.push(*n as u32)?;
    }
    Ok(built)
}
