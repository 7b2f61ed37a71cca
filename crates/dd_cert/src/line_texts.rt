ghost use Rattle.std.specs.Prelude.{◌≡◌, ◌≢◌, ◌∷◌, [], Err, map};
ghost use Rattle.dd_text.specs.declared.read.TextErr.TheVariants as err;
ghost use Rattle.dd_cert.specs.Derivations.{concept, name, pieces_of, pieces_of_line, pieces_of_why};
ghost use Rattle.dd_cert.specs.Steps.{Passes, no_symbols, passed_at, stop_at};

use crate::form::{LineForm, WhyForm};
use crate::read::CertErr;
use dd_concept::Concept;
use dd_json::Text;
use dd_text::{CERT, Symbols, TextErr, is_name, read_concept};
use std::alloc::Global;

/// How many texts there are, where each is a name or a concept within the limits, as it has to be. The texts are read
/// over symbols of their own, of which none stays. Each function of this file goes on from a place, and gives the place
/// behind what it has passed.
pub fn pass_texts_of(alloc: Global, lines: &[LineForm]) -> Result<u32, CertErr>
    ensures { Passes 0 (pieces_of lines.now) result }
{
    let Ok(mut scratch) = Symbols::new(alloc) else {
        return Err(CertErr::NoMemory);
    };
    pass_lines(alloc, &mut scratch, 0, lines)
}

fn pass_lines(
    alloc: Global,
    scratch: &mut Symbols,
    mut place: u32,
    lines: &[LineForm],
) -> Result<u32, CertErr>
    requires { scratch.old ≡ no_symbols }
    ensures { Passes place (pieces_of lines.now) result }
{
    for line in lines {
        match pass_line(alloc, scratch, place, line) {
            Ok(next) => place = next,
            Err(e) => return Err(e),
        }
    }
    Ok(place)
}

fn pass_line(
    alloc: Global,
    scratch: &mut Symbols,
    place: u32,
    line: &LineForm,
) -> Result<u32, CertErr>
    requires { scratch.old ≡ no_symbols }
    ensures passes { Passes place (pieces_of_line line.now) result }
    ensures stays { scratch.new ≡ no_symbols }
{
    let next = pass_label(alloc, scratch, place, line.label.as_slice())?;
    pass_why(alloc, scratch, next, &line.why)
}

fn pass_label(
    alloc: Global,
    scratch: &mut Symbols,
    mut place: u32,
    texts: &[Text],
) -> Result<u32, CertErr>
    requires { scratch.old ≡ no_symbols }
    ensures passes { Passes place (map concept texts.now) result }
    ensures stays { scratch.new ≡ no_symbols }
{
    for text in texts {
        place = pass_concept(alloc, scratch, place, text.as_slice())?;
    }
    Ok(place)
}

fn pass_why(alloc: Global, scratch: &mut Symbols, place: u32, why: &WhyForm) -> Result<u32, CertErr>
    requires { scratch.old ≡ no_symbols }
    ensures passes { Passes place (pieces_of_why why.now) result }
    ensures stays { scratch.new ≡ no_symbols }
{
    match why {
        WhyForm::Clash { name } => pass_name(place, name.as_slice()),
        WhyForm::Cut { on, .. } => pass_concept(alloc, scratch, place, on.as_slice()),
        _ => Ok(place),
    }
}

fn pass_name(place: u32, text: &[u8]) -> Result<u32, CertErr>
    ensures { Passes place (name text.now ∷ []) result }
{
    if is_name(text) {
        Ok(place.saturating_add(1))
    } else {
        Err(CertErr::Text { index: place })
    }
}

fn pass_concept(
    alloc: Global,
    scratch: &mut Symbols,
    place: u32,
    text: &[u8],
) -> Result<u32, CertErr>
    requires { scratch.old ≡ no_symbols }
    ensures passes { Passes place (concept text.now ∷ []) result }
    ensures stays { scratch.new ≡ no_symbols }
{
    let mark = scratch.mark();
    let read = read_concept(alloc, scratch, CERT, text);
    scratch.back(mark);
    passed(place, read)
}

fn passed(place: u32, read: Result<Concept, TextErr>) -> Result<u32, CertErr>
    requires { read ≢ Err err.SymbolsFull }
    ensures { result ≡ passed_at place read }
{
    match read {
        Ok(c) => {
            drop(c);
            return Ok(place.saturating_add(1));
        }
        Err(e) => return Err(stop(place, e)),
    }
}

fn stop(place: u32, e: TextErr) -> CertErr
    requires { e ≢ err.SymbolsFull }
    ensures { result ≡ stop_at place e }
{
    match e {
        TextErr::Bad { .. } | TextErr::TooLarge { .. } | TextErr::TooDeep { .. } => {
            CertErr::Text { index: place }
        }
        TextErr::SymbolsFull => unreachable!(),
        TextErr::NoMemory => CertErr::NoMemory,
    }
}
