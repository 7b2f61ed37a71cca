ghost use Rattle.std.specs.Prelude.{◌≡◌, ◌<◌, ◌^◌, [], ◌∷◌, OnOk};
ghost use Rattle.std.specs.Option.{option_copied};
ghost use Rattle.dd_wire.specs.Progress.{progress, no_texts, noted_of, with_large, finished, finished_room, passed_on, ReadsText, ReadsAxioms, ReadsRules, single};
ghost use Rattle.dd_wire.specs.Requests.{declared_names, source_number};

use crate::code::{BAD_CONCEPT, CONCEPT_LIMIT, SYMBOLS_FULL};
use crate::form::RuleForm;
use crate::names::Names;
use crate::request::WireErr;
use dd_concept::{Axiom, Concept, Items};
use dd_json::Text;
use dd_peer::Rule;
use dd_text::{REQUEST, Symbols, TextErr, read_axiom, read_concept};
use std::alloc::Global;

/// What is known of the texts of a request that were read so far: how many they are, the number of the first with a concept
/// that is above the limits, and whether there was no room for the symbols of one.
#[derive(Clone, Copy)]
pub struct Tally {
    pub texts: u32,
    pub large: Option<u32>,
    pub full: bool,
}

/// Before the first text.
pub fn no_texts() -> Tally
    ensures { result ≡ no_texts }
{
    Tally {
        texts: 0,
        large: None,
        full: false,
    }
}

fn noted(tally: Tally, e: TextErr) -> Result<Tally, WireErr>
    requires { tally.texts < 4294967295 }
    ensures { result ≡ noted_of tally e }
{
    match e {
        TextErr::Bad { .. } => Err(WireErr::Code {
            code: BAD_CONCEPT,
            n: Some(u64::from(tally.texts)),
        }),
        TextErr::TooLarge { .. } | TextErr::TooDeep { .. } => Ok(with_large(tally)),
        TextErr::SymbolsFull => Ok(Tally {
            texts: tally.texts + 1,
            large: tally.large,
            full: true,
        }),
        TextErr::NoMemory => Err(WireErr::NoMemory),
    }
}

fn with_large(tally: Tally) -> Tally
    requires { tally.texts < 4294967295 }
    ensures { result ≡ with_large tally }
{
    Tally {
        texts: tally.texts + 1,
        large: match tally.large {
            Some(n) => Some(n),
            None => Some(tally.texts),
        },
        full: tally.full,
    }
}

/// Reads the text of a concept, which is counted. Where it is above the limits, or has no room for its symbols, another
/// concept is answered, and the tally says so.
pub fn concept(
    alloc: Global,
    symbols: &mut Symbols,
    tally: &mut Tally,
    text: &[u8],
) -> Result<Concept, WireErr>
    ensures { ReadsText (progress tally.old symbols.old) text.now (progress tally.new symbols.new) result }
{
    if tally.texts == 4_294_967_295 {
        return Err(WireErr::NoMemory);
    }
    match read_concept(alloc, symbols, REQUEST, text) {
        Ok(c) => {
            tally.texts += 1;
            Ok(c)
        }
        Err(e) => match noted(*tally, e) {
            Ok(next) => {
                *tally = next;
                Ok(Concept::Top)
            }
            Err(e) => Err(e),
        },
    }
}

/// Reads the text of an axiom, as `concept` does.
fn axiom(
    alloc: Global,
    symbols: &mut Symbols,
    tally: &mut Tally,
    text: &[u8],
) -> Result<Axiom, WireErr>
    ensures { ReadsAxioms (progress tally.old symbols.old) (text.now ∷ []) (progress tally.new symbols.new) (single result) }
{
    if tally.texts == 4_294_967_295 {
        return Err(WireErr::NoMemory);
    }
    match read_axiom(alloc, symbols, REQUEST, text) {
        Ok(a) => {
            tally.texts += 1;
            Ok(a)
        }
        Err(e) => match noted(*tally, e) {
            Ok(next) => {
                *tally = next;
                Ok(Axiom {
                    left: Concept::Top,
                    right: Concept::Top,
                })
            }
            Err(e) => Err(e),
        },
    }
}

/// Reads the texts of axioms, in their order.
pub fn axioms(
    alloc: Global,
    symbols: &mut Symbols,
    tally: &mut Tally,
    texts: &[Text],
) -> Result<Items<Axiom>, WireErr>
    ensures { ReadsAxioms (progress tally.old symbols.old) texts.now (progress tally.new symbols.new) result }
{
    let mut found = Items::new(alloc);
    for text in texts {
        match axiom(alloc, symbols, tally, text.as_slice()) {
            Ok(a) => {
                if found.push(a).is_err() {
                    return Err(WireErr::NoMemory);
                }
            }
            Err(e) => return Err(e),
        }
    }
    Ok(found)
}

/// The number of the peer that a rule comes from; one that is not declared has the largest number.
fn source_number(names: Option<&Names>, from: &[u8]) -> u32
    ensures { result ≡ source_number (declared_names (option_copied names.entry)) from.now }
{
    match names {
        Some(names) => match names.number(from) {
            Some(peer) => peer,
            None => 4_294_967_295,
        },
        None => 4_294_967_295,
    }
}

/// Reads the source and then the target of a rule, as `concept` does.
fn rule(
    alloc: Global,
    symbols: &mut Symbols,
    tally: &mut Tally,
    names: Option<&Names>,
    form: &RuleForm,
) -> Result<Rule, WireErr>
    ensures { ReadsRules (declared_names (option_copied names.entry)) (progress tally.old symbols.old) (form.now ∷ []) (progress tally.new symbols.new) (single result) }
{
    let source = match concept(alloc, symbols, tally, form.source.as_slice()) {
        Ok(c) => c,
        Err(e) => return Err(e),
    };
    let target = match concept(alloc, symbols, tally, form.target.as_slice()) {
        Ok(c) => c,
        Err(e) => {
            drop(source);
            return Err(e);
        }
    };
    Ok(Rule {
        from: source_number(names, form.from.as_slice()),
        source,
        target,
    })
}

/// Reads rules, in their order.
pub fn rules(
    alloc: Global,
    symbols: &mut Symbols,
    tally: &mut Tally,
    names: Option<&Names>,
    forms: &[RuleForm],
) -> Result<Items<Rule>, WireErr>
    ensures { ReadsRules (declared_names (option_copied names.entry)) (progress tally.old symbols.old) forms.now (progress tally.new symbols.new) result }
{
    let mut found = Items::new(alloc);
    for form in forms {
        match rule(alloc, symbols, tally, names, form) {
            Ok(r) => {
                if found.push(r).is_err() {
                    return Err(WireErr::NoMemory);
                }
            }
            Err(e) => return Err(e),
        }
    }
    Ok(found)
}

/// What was read of the texts, where it passes the tests that come after the last one.
pub fn finish_with<T: Drop>(tally: Tally, read: T) -> Result<T, WireErr>
    ensures { result ≡ passed_on (finished tally) read }
{
    match finish(tally) {
        Ok(()) => Ok(read),
        Err(e) => Err(e),
    }
}

/// The tests that come after the last text.
pub fn finish(tally: Tally) -> Result<(), WireErr>
    ensures tests { result ≡ finished tally }
    ensures counted { tally.texts < 2 ^ 32 }
{
    match tally.large {
        Some(n) => Err(WireErr::Code {
            code: CONCEPT_LIMIT,
            n: Some(u64::from(n)),
        }),
        None => finish_room(tally.full),
    }
}

fn finish_room(full: bool) -> Result<(), WireErr>
    ensures { result ≡ finished_room full }
{
    if full {
        return Err(WireErr::Code {
            code: SYMBOLS_FULL,
            n: None,
        });
    }
    Ok(())
}
