//! Labels: sets of numbers below a width.
ghost use Rattle.std.specs.Prelude.{◌≡◌, ◌↔◌, ℕ, ◌<◌, ◌==◌, ◌&&◌, ◌||◌, false, not, IfOk, IfSome, IsTrue};
ghost use Rattle.dd_set.specs.Words.{has, IsWithin, IsNext, IsPacked};

use crate::NoMemory;
use crate::words::{
    are_same, are_within, has_number, keep_all, next_number, put_all, put_number, take_all,
};
use std::alloc::Global;
use std::marker::Model;

/// A set of numbers below a width.
#[derive(Drop)]
pub struct Bits {
    width: u32,
    words: Vec<u64>,
}

impl Model for Bits {
    ghost use Rattle.dd_set.specs.Words.{Label, IsPacked};

    ghost Value = { Label };

    ghost view = { λ b. record { width = b.width; words = b.words.items } };

    ghost invariant = { λ b. IsPacked b.width b.words.items };
}

impl Bits {
    /// The empty set below the width.
    pub fn new(alloc: Global, width: u32) -> Result<Bits, NoMemory>
        ensures width { IfOk result (λ b. b.width ≡ width) }
        ensures empty { IfOk result (λ b. (n : ℕ) → has b.words n ≡ false) }
    {
        let count = (width as usize + 63) / 64;
        Ok(Bits {
            width,
            words: vec![in alloc; 0u64; count]?,
        })
    }

    /// An equal one.
    pub fn copy(&self, alloc: Global) -> Result<Bits, NoMemory>
        ensures { IfOk result (λ b. b ≡ self.now) }
    {
        Ok(Bits {
            width: self.width,
            words: Vec::from_slice(alloc, &self.words)?,
        })
    }

    /// The set that has these words.
    pub fn from_words(alloc: Global, width: u32, words: &[u64]) -> Result<Bits, NoMemory>
        requires { IsPacked width words.now }
        ensures width { IfOk result (λ b. b.width ≡ width) }
        ensures words { IfOk result (λ b. b.words ≡ words.now) }
    {
        Ok(Bits {
            width,
            words: Vec::from_slice(alloc, words)?,
        })
    }

    /// Puts the number into the set, and tells whether it is new.
    pub fn insert(&mut self, n: u32) -> bool
        requires { n < self.old.width }
        ensures fresh { result ≡ not (has self.old.words n) }
        ensures with { (k : ℕ) → has self.new.words k ≡ ((k == n) || has self.old.words k) }
        ensures width { self.new.width ≡ self.old.width }
    {
        put_number(&mut self.words, n)
    }

    /// Puts all numbers of the set with these words into this one, `other.words()` of a set of this width, say.
    pub fn insert_all(&mut self, words: &[u64])
        requires { IsPacked self.old.width words.now }
        ensures union { (k : ℕ) → has self.new.words k ≡ (has self.old.words k || has words.now k) }
        ensures width { self.new.width ≡ self.old.width }
    {
        put_all(&mut self.words, words)
    }

    /// Keeps the numbers that are in the other set.
    pub fn keep_all(&mut self, other: &Bits)
        requires { self.old.width ≡ other.now.width }
        ensures both { (k : ℕ) → has self.new.words k ≡ (has self.old.words k && has other.now.words k) }
        ensures width { self.new.width ≡ self.old.width }
    {
        keep_all(&mut self.words, &other.words)
    }

    /// Takes the numbers of the other set out of this one.
    pub fn take_all(&mut self, other: &Bits)
        requires { self.old.width ≡ other.now.width }
        ensures rest { (k : ℕ) → has self.new.words k ≡ (has self.old.words k && not (has other.now.words k)) }
        ensures width { self.new.width ≡ self.old.width }
    {
        take_all(&mut self.words, &other.words)
    }

    /// Whether the number is in the set.
    pub fn contains(&self, n: u32) -> bool
        ensures { result ≡ has self.now.words n }
    {
        has_number(&self.words, n)
    }

    /// Whether all that is in this set is in the other.
    pub fn is_subset(&self, other: &Bits) -> bool
        requires { self.now.width ≡ other.now.width }
        ensures { IsTrue result ↔ IsWithin self.now.words other.now.words }
    {
        are_within(&self.words, &other.words)
    }

    /// Whether the two sets are equal.
    pub fn same(&self, other: &Bits) -> bool
        requires { self.now.width ≡ other.now.width }
        ensures words { IsTrue result ↔ (self.now.words ≡ other.now.words) }
        ensures numbers { IsTrue result ↔ ((n : ℕ) → has self.now.words n ≡ has other.now.words n) }
    {
        are_same(&self.words, &other.words)
    }

    /// The least number of the set that is at least `n`.
    pub fn next_from(&self, n: u32) -> Option<u32>
        ensures next { IsNext self.now.words n result }
        ensures below { IfSome result (λ m. m < self.now.width) }
    {
        next_number(&self.words, n)
    }

    /// All numbers are below it.
    pub fn width(&self) -> u32
        ensures width { result ≡ self.now.width }
        ensures packed { IsPacked self.now.width self.now.words }
    {
        self.width
    }

    /// The words.
    pub fn words(&self) -> &[u64]
        ensures words { result.now ≡ self.now.words }
        ensures packed { IsPacked self.now.width self.now.words }
    {
        &self.words
    }
}
