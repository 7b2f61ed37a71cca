//! Numbers below a bound, each once, in the order in which they came.
ghost use Rattle.std.specs.Prelude.{◌≡◌, ◌<◌, [], not, length, slice_get, IfOk, IfSome};
ghost use Rattle.dd_set.specs.Marked.{is_among, with_arrival, AreOnce};

use crate::NoMemory;
use std::alloc::Global;
use std::marker::Model;

/// Numbers below a bound, each once, in the order in which they came, with a test in constant time.
///
/// All memory is taken at the start. There are never more numbers than the bound, so a loop by an index that goes through
/// them while more come has an end.
#[derive(Drop)]
pub struct Marked {
    list: Vec<u32>,
    marks: Vec<bool>,
}

impl Model for Marked {
    ghost use Rattle.std.specs.Prelude.{◌<◌, ◌≤◌, ◌^◌, vec_len, vec_capacity};
    ghost use Rattle.dd_set.specs.Marked.{Arrivals, HasMarks};

    ghost Value = { Arrivals };

    ghost view = { λ m. record { bound = vec_len m.marks; list = m.list.items } };

    ghost invariant = { λ m. HasMarks m.marks.items m.list.items × (vec_len m.marks ≤ vec_capacity m.list) × (vec_len m.marks < 2 ^ 32) };
}

impl Marked {
    /// No numbers, with room for all below the bound.
    pub fn new(alloc: Global, bound: u32) -> Result<Marked, NoMemory>
        ensures bound { IfOk result (λ m. m.bound ≡ bound) }
        ensures empty { IfOk result (λ m. m.list ≡ []) }
    {
        Ok(Marked {
            list: Vec::with_capacity(alloc, bound as usize)?,
            marks: vec![in alloc; false; bound as usize]?,
        })
    }

    /// Puts the number behind the others where it is not there yet, and tells whether it was new.
    pub fn add(&mut self, n: u32) -> bool
        requires { n < self.old.bound }
        ensures fresh { result ≡ not (is_among n self.old.list) }
        ensures list { self.new ≡ record self.old { list = with_arrival self.old.list n } }
    {
        if self.marks[n as usize] {
            return false;
        }
        self.marks[n as usize] = true;
        self.list.push_reserved(n);
        true
    }

    /// Whether the number is there. One that is not below the bound is not.
    pub fn has(&self, n: u32) -> bool
        ensures { result ≡ is_among n self.now.list }
    {
        match self.marks.get(n as usize) {
            Some(mark) => *mark,
            None => false,
        }
    }

    /// The number with this place, counted from 0.
    pub fn get(&self, index: u32) -> Option<u32>
        ensures number { result ≡ slice_get self.now.list index }
        ensures below { IfSome result (λ n. n < self.now.bound) }
        ensures within { IfSome result (λ n. index < self.now.bound) }
    {
        let at = index as usize;
        if at < self.list.len() {
            Some(self.list[at])
        } else {
            None
        }
    }

    /// How many numbers there are.
    pub fn len(&self) -> u32
        ensures len { result ≡ length self.now.list }
        ensures once { AreOnce self.now.bound self.now.list }
    {
        self.list.len() as u32
    }

    /// All numbers are below it.
    pub fn bound(&self) -> u32
        ensures { result ≡ self.now.bound }
    {
        self.marks.len() as u32
    }

    /// The numbers, the first to come first.
    pub fn as_slice(&self) -> &[u32]
        ensures list { result.now ≡ self.now.list }
        ensures once { AreOnce self.now.bound self.now.list }
    {
        &self.list
    }
}
