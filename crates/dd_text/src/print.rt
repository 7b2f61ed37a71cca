ghost use Rattle.std.specs.Prelude.{◌≡◌, ◌<◌, ◌∷◌, ◌++◌, [], IfOk, IsTrue, OnOk, length};
ghost use Rattle.dd_text.specs.Text.{axiom_text_of, concept_text, has_symbols, text_at};

use crate::symbols::Symbols;
use dd_concept::{Axiom, Concept, NoMemory};
use std::alloc::Global;

fn write_role(
    symbols: &Symbols,
    opening: &[u8],
    role: u32,
    out: &mut Vec<u8>,
) -> Result<(), NoMemory>
    requires { role < length symbols.now.roles }
    ensures { OnOk result (out.new.items ≡ out.old.items ++ opening.now ++ text_at symbols.now.roles role) }
{
    out.extend_from_slice(opening)?;
    out.extend_from_slice(symbols.role(role))
}

#[cycle(write)]
fn write_concept(symbols: &Symbols, c: &Concept, out: &mut Vec<u8>) -> Result<(), NoMemory>
    requires { IsTrue (has_symbols symbols.now c.now) }
    ensures { OnOk result (out.new.items ≡ out.old.items ++ concept_text symbols.now c.now) }
{
    match c {
        Concept::Top => out.extend_from_slice(b"top"),
        Concept::Bottom => out.extend_from_slice(b"bottom"),
        Concept::Name(a) => out.extend_from_slice(symbols.name(*a)),
        Concept::Not(d) => write_part(symbols, b"(not ", d.get(), b")", out),
        Concept::And(d, e) => {
            write_part(symbols, b"(and ", d.get(), b" ", out)?;
            write_part(symbols, b"", e.get(), b")", out)
        }
        Concept::Or(d, e) => {
            write_part(symbols, b"(or ", d.get(), b" ", out)?;
            write_part(symbols, b"", e.get(), b")", out)
        }
        Concept::HasSome(r, d) => {
            write_role(symbols, b"(some ", *r, out)?;
            write_part(symbols, b" ", d.get(), b")", out)
        }
        Concept::HasAll(r, d) => {
            write_role(symbols, b"(all ", *r, out)?;
            write_part(symbols, b" ", d.get(), b")", out)
        }
    }
}

// A part of a form, with what stands before and after it.
#[cycle(write)]
fn write_part(
    symbols: &Symbols,
    before: &[u8],
    c: &Concept,
    after: &[u8],
    out: &mut Vec<u8>,
) -> Result<(), NoMemory>
    requires { IsTrue (has_symbols symbols.now c.now) }
    ensures { OnOk result (out.new.items ≡ out.old.items ++ before.now ++ concept_text symbols.now c.now ++ after.now) }
{
    out.extend_from_slice(before)?;
    write_concept(symbols, c, out)?;
    out.extend_from_slice(after)
}

/// The one text of a concept.
pub fn print_concept(alloc: Global, symbols: &Symbols, c: &Concept) -> Result<Vec<u8>, NoMemory>
    requires { IsTrue (has_symbols symbols.now c.now) }
    ensures { IfOk result (λ text. text.items ≡ concept_text symbols.now c.now) }
{
    let mut text = Vec::new(alloc);
    write_concept(symbols, c, &mut text)?;
    Ok(text)
}

/// The one text of an axiom.
pub fn print_axiom(alloc: Global, symbols: &Symbols, a: &Axiom) -> Result<Vec<u8>, NoMemory>
    requires left { IsTrue (has_symbols symbols.now a.now.left) }
    requires right { IsTrue (has_symbols symbols.now a.now.right) }
    ensures { IfOk result (λ text. text.items ≡ axiom_text_of symbols.now a.now) }
{
    let mut text = Vec::new(alloc);
    write_part(symbols, b"(implies ", &a.left, b" ", &mut text)?;
    write_part(symbols, b"", &a.right, b")", &mut text)?;
    Ok(text)
}
