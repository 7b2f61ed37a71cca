ghost use Rattle.std.specs.Prelude.{◌≡◌, ◌<◌, ◌≤◌, Err, IsTrue, OnErr, OnOk};
ghost use Rattle.std.specs.List.{list_all};
ghost use Rattle.dd_text.specs.Names.{names_a_thing};
ghost use Rattle.dd_text.specs.Symbols.{Grows, symbol_count, with_text};
ghost use Rattle.dd_cert.specs.Steps.{gather, with_name, with_role, with_local, has_name, has_role, has_names};

use crate::form::LocalForm;
use dd_json::Text;
use dd_text::{NameErr, Symbols};
use std::alloc::Global;

/// Why symbols were not added.
#[derive(Drop)]
pub enum AddErr {
    SymbolsFull,
    NoMemory,
}

/// Adds the names and roles of local interpretations. After an error, here as below, the symbols are those from before
/// with others behind them.
pub fn add_locals(alloc: Global, symbols: &mut Symbols, locals: &[LocalForm]) -> Result<(), AddErr>
    requires named { IsTrue (list_all has_names locals.now) }
    requires few { symbol_count symbols.old ≤ 65536 }
    ensures ok { OnOk result (symbols.new ≡ gather with_local symbols.old locals.now) }
    ensures few { OnOk result (symbol_count symbols.new ≤ 65536) }
    ensures full { result ≡ Err AddErr.SymbolsFull → 65536 < symbol_count (gather with_local symbols.old locals.now) }
    ensures grows { Grows symbols.old symbols.new }
{
    for local in locals {
        if let Err(e) = add_local(alloc, symbols, local) {
            return Err(e);
        }
    }
    Ok(())
}

fn add_local(alloc: Global, symbols: &mut Symbols, local: &LocalForm) -> Result<(), AddErr>
    requires named { IsTrue (has_names local.now) }
    requires few { symbol_count symbols.old ≤ 65536 }
    ensures ok { OnOk result (symbols.new ≡ with_local symbols.old local.now) }
    ensures few { OnOk result (symbol_count symbols.new ≤ 65536) }
    ensures full { result ≡ Err AddErr.SymbolsFull → 65536 < symbol_count (with_local symbols.old local.now) }
    ensures grows { Grows symbols.old symbols.new }
{
    if let Err(e) = add_names(alloc, symbols, local.names.as_slice()) {
        return Err(e);
    }
    if let Err(e) = add_roles(alloc, symbols, local.roles.as_slice()) {
        return Err(e);
    }
    Ok(())
}

fn add_names(alloc: Global, symbols: &mut Symbols, names: &[(Text, u64)]) -> Result<(), AddErr>
    requires named { IsTrue (list_all has_name names.now) }
    requires few { symbol_count symbols.old ≤ 65536 }
    ensures ok { OnOk result (symbols.new ≡ gather with_name symbols.old names.now) }
    ensures few { OnOk result (symbol_count symbols.new ≤ 65536) }
    ensures full { result ≡ Err AddErr.SymbolsFull → 65536 < symbol_count (gather with_name symbols.old names.now) }
    ensures grows { Grows symbols.old symbols.new }
{
    for name in names {
        if let Err(e) = add_name(alloc, symbols, name) {
            return Err(e);
        }
    }
    Ok(())
}

fn add_roles(alloc: Global, symbols: &mut Symbols, roles: &[(Text, u64, u64)]) -> Result<(), AddErr>
    requires named { IsTrue (list_all has_role roles.now) }
    requires few { symbol_count symbols.old ≤ 65536 }
    ensures ok { OnOk result (symbols.new ≡ gather with_role symbols.old roles.now) }
    ensures few { OnOk result (symbol_count symbols.new ≤ 65536) }
    ensures full { result ≡ Err AddErr.SymbolsFull → 65536 < symbol_count (gather with_role symbols.old roles.now) }
    ensures grows { Grows symbols.old symbols.new }
{
    for role in roles {
        if let Err(e) = add_role(alloc, symbols, role) {
            return Err(e);
        }
    }
    Ok(())
}

fn add_name(alloc: Global, symbols: &mut Symbols, name: &(Text, u64)) -> Result<(), AddErr>
    requires { IsTrue (has_name name.now) }
    ensures ok { OnOk result (symbols.new ≡ with_name symbols.old name.now) }
    ensures few { OnOk result (symbol_count symbols.new ≤ 65536) }
    ensures full { result ≡ Err AddErr.SymbolsFull → 65536 < symbol_count (with_name symbols.old name.now) }
    ensures grows { Grows symbols.old symbols.new }
{
    match symbols.add_name(alloc, name.0.as_slice()) {
        Ok(_) => Ok(()),
        Err(NameErr::SymbolsFull) => Err(AddErr::SymbolsFull),
        Err(NameErr::NoMemory) => Err(AddErr::NoMemory),
        Err(NameErr::Bad) => unreachable!(),
    }
}

fn add_role(alloc: Global, symbols: &mut Symbols, role: &(Text, u64, u64)) -> Result<(), AddErr>
    requires { IsTrue (has_role role.now) }
    ensures ok { OnOk result (symbols.new ≡ with_role symbols.old role.now) }
    ensures few { OnOk result (symbol_count symbols.new ≤ 65536) }
    ensures full { result ≡ Err AddErr.SymbolsFull → 65536 < symbol_count (with_role symbols.old role.now) }
    ensures grows { Grows symbols.old symbols.new }
{
    match symbols.add_role(alloc, role.0.as_slice()) {
        Ok(_) => Ok(()),
        Err(NameErr::SymbolsFull) => Err(AddErr::SymbolsFull),
        Err(NameErr::NoMemory) => Err(AddErr::NoMemory),
        Err(NameErr::Bad) => unreachable!(),
    }
}
