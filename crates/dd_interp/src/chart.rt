//! Interpretations seen at some elements, for which a whole row of elements is found at once.
ghost use Rattle.std.specs.Prelude.{◌≡◌, ℕ, Bool, true, false, not, All, IfOk};
ghost use Rattle.dd_set.specs.Sets.{IsRising};
ghost use Rattle.dd_set.specs.Words.{has};
ghost use Rattle.dd_interp.specs.Meaning.{all_along, in_name, meaning, some_along};
ghost use Rattle.dd_interp.specs.Places.{is_listed};
ghost use Rattle.dd_interp.specs.Seen.{IsExtension, IsSeenAt};

use crate::fill::{full, named, starts};
use crate::interp::Interp;
use crate::seen::{seen_names, seen_roles};
use dd_concept::{Concept, NoMemory};
use dd_set::Bits;
use std::alloc::Global;
use std::marker::Model;

/// An interpretation seen at some of its elements, which are numbered by their places in a rising list. Its lists go by
/// symbols.
#[derive(Drop)]
pub struct Chart {
    size: u32,
    names: Vec<(u32, u32)>,
    roles: Vec<(u32, u32, u32)>,
    all: Bits,
}

impl Model for Chart {
    ghost use Rattle.dd_interp.specs.declared.interp.Interp.{Interp};
    ghost use Rattle.dd_interp.specs.Seen.{IsChart};

    ghost Value = { Interp };

    ghost view = { λ c. record { size = c.size; names = c.names.items; roles = c.roles.items } };

    ghost invariant = { λ c. IsChart (record { size = c.size; names = c.names.items; roles = c.roles.items }) c.all };
}

impl Chart {
    /// The interpretation at these elements, among which are all that a role leads to.
    pub fn new(alloc: Global, i: &Interp, elements: &[u32]) -> Result<Chart, NoMemory>
        requires rising { IsRising elements.now }
        requires ends { All (λ t. is_listed elements.now t.2 ≡ true) i.now.roles }
        ensures { IfOk result (IsSeenAt i.now elements.now) }
    {
        let Ok(size) = u32::try_from(elements.len()) else {
            return Err(NoMemory);
        };
        let names = seen_names(alloc, i.names.as_slice(), elements)?;
        let roles = seen_roles(alloc, i.roles.as_slice(), elements)?;
        let all = full(alloc, size)?;
        Ok(Chart {
            size,
            names,
            roles,
            all,
        })
    }

    /// The number of its elements.
    pub fn size(&self) -> u32
        ensures { result ≡ self.now.size }
    {
        self.size
    }

    /// The elements of the concept. Each part of it is looked at once, and no more rows are alive than it is deep.
    pub fn row(&self, alloc: Global, c: &Concept) -> Result<Bits, NoMemory>
        ensures { IfOk result (IsExtension self.now.size (meaning self.now c.now)) }
    {
        match c {
            Concept::Top => self.each(alloc),
            Concept::Bottom => self.none(alloc),
            Concept::Name(a) => self.named(alloc, *a),
            Concept::Not(d) => {
                let row = self.row(alloc, d.get())?;
                self.others(alloc, &row)
            }
            Concept::And(d, e) => {
                let mut row = self.row(alloc, d.get())?;
                let other = self.row(alloc, e.get())?;
                row.keep_all(&other);
                Ok(row)
            }
            Concept::Or(d, e) => {
                let mut row = self.row(alloc, d.get())?;
                let other = self.row(alloc, e.get())?;
                row.insert_all(other.words());
                Ok(row)
            }
            Concept::HasSome(r, d) => {
                let ends = self.row(alloc, d.get())?;
                self.starts(alloc, *r, &ends)
            }
            Concept::HasAll(r, d) => {
                let ends = self.row(alloc, d.get())?;
                self.all_starts(alloc, *r, &ends)
            }
        }
    }

    fn each(&self, alloc: Global) -> Result<Bits, NoMemory>
        ensures { IfOk result (IsExtension self.now.size (λ k. true)) }
    {
        self.all.copy(alloc)
    }

    fn none(&self, alloc: Global) -> Result<Bits, NoMemory>
        ensures { IfOk result (IsExtension self.now.size (λ k. false)) }
    {
        Bits::new(alloc, self.size)
    }

    fn named(&self, alloc: Global, a: u32) -> Result<Bits, NoMemory>
        ensures { IfOk result (IsExtension self.now.size (in_name self.now.names a)) }
    {
        named(alloc, self.size, self.names.as_slice(), a)
    }

    /// The elements that are not in the row.
    fn others(&self, alloc: Global, row: &Bits) -> Result<Bits, NoMemory>
        requires { row.now.width ≡ self.now.size }
        ensures { IfOk result (IsExtension self.now.size (λ k. not (has row.now.words k))) }
    {
        let mut others = self.each(alloc)?;
        others.take_all(row);
        Ok(others)
    }

    /// The elements from which the role leads to one of `ends`.
    fn starts(&self, alloc: Global, r: u32, ends: &Bits) -> Result<Bits, NoMemory>
        ensures width { IfOk result (λ row. row.width ≡ self.now.size) }
        ensures starts { IfOk result (λ row. (test : ℕ → Bool) → IsExtension self.now.size test ends.now → IsExtension self.now.size (some_along self.now.roles r test) row) }
    {
        starts(alloc, self.size, self.roles.as_slice(), r, ends)
    }

    /// The elements from which the role leads to none but those of `ends`.
    fn all_starts(&self, alloc: Global, r: u32, ends: &Bits) -> Result<Bits, NoMemory>
        requires { ends.now.width ≡ self.now.size }
        ensures { IfOk result (λ row. (test : ℕ → Bool) → IsExtension self.now.size test ends.now → IsExtension self.now.size (all_along self.now.roles r test) row) }
    {
        let others = self.others(alloc, ends)?;
        let row = self.starts(alloc, r, &others)?;
        self.others(alloc, &row)
    }
}
