ghost use Rattle.std.specs.Prelude.{◌≡◌, ◌<◌, ◌≤◌, Err, IfOk, IsTrue, OnErr, OnOk};
ghost use Rattle.std.specs.List.{list_all};
ghost use Rattle.serde_json.specs.View.{view};
ghost use Rattle.dd_text.specs.Symbols.{Grows, symbol_count};
ghost use Rattle.dd_cert.specs.Certificates.{ReadsCert, world_by};
ghost use Rattle.dd_cert.specs.Steps.{Certifies, CertifiesLines, ReadsForm, gather, with_local, has_names, world_fits, refusal_of};

use crate::add::{AddErr, add_locals};
use crate::build::build;
use crate::form::{CertForm, LineForm, WorldForm};
use crate::limits::{pass_numbers, pass_texts};
use crate::line_limits::pass_lines;
use crate::line_texts::pass_texts_of;
use crate::lines::certify_lines;
use crate::shape::cert_form;
use dd_concept::Items;
use dd_task::Line;
use dd_text::Symbols;
use dd_world::World;
use serde_json::Value;
use std::alloc::Global;

/// The evidence that a certificate carries.
#[derive(Drop)]
pub enum Cert {
    /// A derivation, for a yes.
    Yes(Items<Line>),
    /// A countermodel, for a no.
    No(World),
}

/// Why a value is no certificate. Where several hold, the first in this order is told. Numbers other than `format` and
/// texts are each counted from 0 in reading order, which takes the members of an object in the byte order of their names;
/// a count above 4,294,967,295 is told as that.
#[derive(Debug, Drop)]
pub enum CertErr {
    /// The member `field` of the value is missing or has another form: `format`, `kind`, and then `lines`, or `links` or
    /// `locals`, in this order. What is no object has no `format`; a member that a certificate of its kind does not have is
    /// told as `kind`.
    Shape { field: &'static str },
    /// The number `value`, at this place, is above 4,294,967,295.
    Index { place: u32, value: u64 },
    /// The text with this number is no name where one has to be, or no concept of at most 2,000 nodes and depth 65.
    Text { index: u32 },
    /// There would be more names and roles than there may be.
    SymbolsFull,
    /// Memory ran out, whatever the value is.
    NoMemory,
}

/// Reads a certificate. Its new symbols are added in reading order; an error leaves the symbols as they were.
pub fn read_cert(alloc: Global, symbols: &mut Symbols, v: &Value) -> Result<Cert, CertErr>
    ensures reads { ReadsCert symbols.old symbols.new (view v.now) result }
    ensures grows { Grows symbols.old symbols.new }
{
    match cert_form(alloc, v) {
        Ok(form) => read_form(alloc, symbols, form),
        Err(e) => Err(e),
    }
}

/// What a form is evidence of.
fn read_form(alloc: Global, symbols: &mut Symbols, form: CertForm) -> Result<Cert, CertErr>
    ensures reads { ReadsForm symbols.old symbols.new form result }
    ensures grows { Grows symbols.old symbols.new }
{
    match form {
        CertForm::Yes(forms) => match read_lines(alloc, symbols, forms.as_slice()) {
            Ok(lines) => Ok(Cert::Yes(lines)),
            Err(e) => Err(e),
        },
        CertForm::No(world) => match read_world(alloc, symbols, &world) {
            Ok(world) => Ok(Cert::No(world)),
            Err(e) => Err(e),
        },
    }
}

/// The lines of forms. Their new symbols are added; an error leaves the symbols as they were.
fn read_lines(
    alloc: Global,
    symbols: &mut Symbols,
    forms: &[LineForm],
) -> Result<Items<Line>, CertErr>
    ensures reads { CertifiesLines symbols.old symbols.new forms.now result }
    ensures grows { Grows symbols.old symbols.new }
{
    if let Err(e) = pass_lines(0, forms) {
        return Err(e);
    }
    if let Err(e) = pass_texts_of(alloc, forms) {
        return Err(e);
    }
    match certify_lines(alloc, symbols, forms) {
        Ok(lines) => Ok(lines),
        Err(e) => Err(refused(e)),
    }
}

/// The world of a form. Its new symbols are added; an error leaves the symbols as they were.
fn read_world(alloc: Global, symbols: &mut Symbols, form: &WorldForm) -> Result<World, CertErr>
    ensures reads { Certifies symbols.old symbols.new form.now result }
    ensures grows { Grows symbols.old symbols.new }
{
    if let Err(e) = pass_numbers(form) {
        return Err(e);
    }
    if let Err(e) = pass_texts(form) {
        return Err(e);
    }
    match certify(alloc, symbols, form) {
        Ok(world) => Ok(world),
        Err(e) => Err(refused(e)),
    }
}

fn refused(e: AddErr) -> CertErr
    ensures { result ≡ refusal_of e }
{
    match e {
        AddErr::SymbolsFull => CertErr::SymbolsFull,
        AddErr::NoMemory => CertErr::NoMemory,
    }
}

/// The world of a form whose texts are names and whose numbers are not too large. An error leaves the symbols as they were.
fn certify(alloc: Global, symbols: &mut Symbols, form: &WorldForm) -> Result<World, AddErr>
    requires named { IsTrue (list_all has_names form.now.locals) }
    requires fit { IsTrue (world_fits form.now) }
    ensures symbols { OnOk result (symbols.new ≡ gather with_local symbols.old form.now.locals) }
    ensures world { IfOk result (λ w. w ≡ world_by symbols.new form.now) }
    ensures few { OnOk result (symbol_count symbols.new ≤ 65536) }
    ensures full { result ≡ Err AddErr.SymbolsFull → 65536 < symbol_count (gather with_local symbols.old form.now.locals) }
    ensures err { OnErr result (symbols.new ≡ symbols.old) }
{
    let mark = symbols.mark();
    if let Err(e) = add_locals(alloc, symbols, form.locals.as_slice()) {
        symbols.back(mark);
        return Err(e);
    }
    let Ok(world) = build(alloc, symbols, form) else {
        symbols.back(mark);
        return Err(AddErr::NoMemory);
    };
    Ok(world)
}
