ghost use Rattle.std.specs.Prelude.{◌≡◌, ◌≢◌, ◌↔◌, ◌≤◌, ◌<◌, ◌+◌, ◌&&◌, false, [], length, take, IfOk, OnErr, OnOk, IsTrue, slice_get, Err};
ghost use Rattle.indexmap.specs.IndexSet.{index_set_len, IsUnique};
ghost use Rattle.dd_text.specs.Names.{names_a_thing};
ghost use Rattle.dd_text.specs.Symbols.{IsNumbering, symbol_count, lacks_room, with_text, number_of, are_names, texts_of, same_text};

use crate::names::is_name;
use dd_concept::NoMemory;
use indexmap::IndexSet;
use std::alloc::Global;
use std::marker::Model;
use thiserror::Error;

/// The most symbols, names and roles together.
const MOST_SYMBOLS: usize = 65_536;

/// The names and the roles that have occurred, each with its number: its position among its kind, from 0.
#[derive(Drop)]
pub struct Symbols {
    names: Box<IndexSet<Vec<u8>>>,
    roles: Box<IndexSet<Vec<u8>>>,
}

impl Model for Symbols {
    ghost use Rattle.std.specs.Prelude.{◌≤◌, ◌+◌, IsTrue};
    ghost use Rattle.indexmap.specs.IndexSet.{index_set_len, IsUnique};
    ghost use Rattle.dd_text.specs.Symbols.{SymbolLists, are_names, texts_of, same_text};

    ghost Value = { SymbolLists };

    ghost view = { λ s. record { names = texts_of s.names.value.keys; roles = texts_of s.roles.value.keys } };

    ghost invariant = { λ s. (index_set_len s.names.value + index_set_len s.roles.value ≤ 65536) × IsUnique same_text s.names.value × IsUnique same_text s.roles.value × IsTrue (are_names (texts_of s.names.value.keys)) × IsTrue (are_names (texts_of s.roles.value.keys)) };
}

/// How many names and how many roles there were at one moment.
#[derive(Clone, Copy)]
pub struct Mark {
    pub names: u32,
    pub roles: u32,
}

/// Why a text has no number. Where several hold, the first in this order is told.
#[derive(Debug, Drop, Error)]
pub enum NameErr {
    #[error("the text is no name")]
    Bad,
    #[error("there are as many symbols as there may be")]
    SymbolsFull,
    #[error("out of memory")]
    NoMemory,
}

impl Symbols {
    /// No names and no roles.
    pub fn new(alloc: Global) -> Result<Symbols, NoMemory>
        ensures names { IfOk result (λ s. s.names ≡ []) }
        ensures roles { IfOk result (λ s. s.roles ≡ []) }
    {
        Ok(Symbols {
            names: Box::new(alloc, IndexSet::new(alloc))?,
            roles: Box::new(alloc, IndexSet::new(alloc))?,
        })
    }

    /// How many names there are.
    pub fn name_count(&self) -> u32
        ensures { result ≡ length self.now.names }
    {
        self.names.len() as u32
    }

    /// How many roles there are.
    pub fn role_count(&self) -> u32
        ensures { result ≡ length self.now.roles }
    {
        self.roles.len() as u32
    }

    /// Both numbers, to which `back` can cut later.
    pub fn mark(&self) -> Mark
        ensures names { result.names ≡ length self.now.names }
        ensures roles { result.roles ≡ length self.now.roles }
        ensures numbering { IsNumbering self.now }
    {
        Mark {
            names: self.names.len() as u32,
            roles: self.roles.len() as u32,
        }
    }

    /// Forgets the symbols that came after the mark.
    pub fn back(&mut self, m: Mark)
        requires names { m.names ≤ length self.old.names }
        requires roles { m.roles ≤ length self.old.roles }
        ensures names { self.new.names ≡ take m.names self.old.names }
        ensures roles { self.new.roles ≡ take m.roles self.old.roles }
    {
        self.names.truncate(m.names as usize);
        self.roles.truncate(m.roles as usize);
    }

    /// The number of a name, or how many names there are where it is none of them.
    pub fn name_number(&self, text: &[u8]) -> u32
        ensures { result ≡ number_of self.now.names text.now }
    {
        number_in(&self.names, text)
    }

    /// The number of a role, or how many roles there are where it is none of them.
    pub fn role_number(&self, text: &[u8]) -> u32
        ensures { result ≡ number_of self.now.roles text.now }
    {
        number_in(&self.roles, text)
    }

    /// The name with this number.
    pub fn name(&self, n: u32) -> &[u8]
        requires { n < length self.now.names }
        ensures { slice_get self.now.names n ≡ Some result.now }
    {
        text_at(&self.names, n)
    }

    /// The role with this number.
    pub fn role(&self, n: u32) -> &[u8]
        requires { n < length self.now.roles }
        ensures { slice_get self.now.roles n ≡ Some result.now }
    {
        text_at(&self.roles, n)
    }

    /// The number of a name, which is added where it is new. An error leaves the symbols as they were.
    pub fn add_name(&mut self, alloc: Global, text: &[u8]) -> Result<u32, NameErr>
        ensures symbols { OnOk result (self.new ≡ record self.old { names = with_text self.old.names text.now }) }
        ensures number { IfOk result (λ n. n ≡ number_of self.new.names text.now) }
        ensures found { IfOk result (λ n. slice_get self.new.names n ≡ Some text.now) }
        ensures bad { (result ≡ Err NameErr.Bad) ↔ (names_a_thing text.now ≡ false) }
        ensures full { (result ≡ Err NameErr.SymbolsFull) ↔ IsTrue (names_a_thing text.now && lacks_room (symbol_count self.old) self.old.names text.now) }
        ensures few { OnOk result (symbol_count self.new ≤ 65536) }
        ensures err { OnErr result (self.new ≡ self.old) }
    {
        if !is_name(text) {
            return Err(NameErr::Bad);
        }
        let others = self.roles.len();
        add_text(alloc, &mut self.names, others, text)
    }

    /// The number of a role, which is added where it is new. An error leaves the symbols as they were.
    pub fn add_role(&mut self, alloc: Global, text: &[u8]) -> Result<u32, NameErr>
        ensures symbols { OnOk result (self.new ≡ record self.old { roles = with_text self.old.roles text.now }) }
        ensures number { IfOk result (λ n. n ≡ number_of self.new.roles text.now) }
        ensures found { IfOk result (λ n. slice_get self.new.roles n ≡ Some text.now) }
        ensures bad { (result ≡ Err NameErr.Bad) ↔ (names_a_thing text.now ≡ false) }
        ensures full { (result ≡ Err NameErr.SymbolsFull) ↔ IsTrue (names_a_thing text.now && lacks_room (symbol_count self.old) self.old.roles text.now) }
        ensures few { OnOk result (symbol_count self.new ≤ 65536) }
        ensures err { OnErr result (self.new ≡ self.old) }
    {
        if !is_name(text) {
            return Err(NameErr::Bad);
        }
        let others = self.names.len();
        add_text(alloc, &mut self.roles, others, text)
    }
}

fn text_at(texts: &IndexSet<Vec<u8>>, n: u32) -> &[u8]
    requires { n < index_set_len texts.now }
    ensures { slice_get (texts_of texts.now.keys) n ≡ Some result.now }
{
    match texts.get_index(n as usize) {
        Some(text) => text.as_slice(),
        None => unreachable!(),
    }
}

fn number_in(texts: &IndexSet<Vec<u8>>, text: &[u8]) -> u32
    requires { index_set_len texts.now ≤ 65536 }
    ensures { result ≡ number_of (texts_of texts.now.keys) text.now }
{
    match texts.get_index_of(text) {
        Some(n) => n as u32,
        None => texts.len() as u32,
    }
}

fn add_text(
    alloc: Global,
    texts: &mut IndexSet<Vec<u8>>,
    others: usize,
    text: &[u8],
) -> Result<u32, NameErr>
    requires room { index_set_len texts.old + others ≤ 65536 }
    requires named { IsTrue (are_names (texts_of texts.old.keys)) }
    requires name { IsTrue (names_a_thing text.now) }
    ensures texts { OnOk result (texts_of texts.new.keys ≡ with_text (texts_of texts.old.keys) text.now) }
    ensures number { IfOk result (λ n. n ≡ number_of (texts_of texts.new.keys) text.now) }
    ensures found { IfOk result (λ n. slice_get (texts_of texts.new.keys) n ≡ Some text.now) }
    ensures not_bad { result ≢ Err NameErr.Bad }
    ensures full { (result ≡ Err NameErr.SymbolsFull) ↔ IsTrue (lacks_room (index_set_len texts.old + others) (texts_of texts.old.keys) text.now) }
    ensures err { OnErr result (texts.new.keys ≡ texts.old.keys) }
    ensures room { index_set_len texts.new + others ≤ 65536 }
    ensures unique { IsUnique same_text texts.new }
    ensures named { IsTrue (are_names (texts_of texts.new.keys)) }
{
    let count = texts.len();
    if let Some(n) = texts.get_index_of(text) {
        return Ok(n as u32);
    }
    if count + others == MOST_SYMBOLS {
        return Err(NameErr::SymbolsFull);
    }
    let Ok(owned) = Vec::from_slice(alloc, text) else {
        return Err(NameErr::NoMemory);
    };
    let Ok((at, _)) = texts.insert_full(owned) else {
        return Err(NameErr::NoMemory);
    };
    Ok(at as u32)
}
