//! A label of a table, as its arena holds it.
ghost use Rattle.std.specs.Prelude.{◌≡◌, ◌<◌, IfOk, IfSome};
ghost use Rattle.dd_set.specs.Words.{has, IsNext, IsPacked};

use dd_set::{Bits, NoMemory, has_number, next_number};
use std::alloc::Global;
use std::marker::Model;

/// A label of a table, as its arena holds it. It may outlive the table, and not the arena.
#[derive(Drop)]
pub struct LabelView<'b> {
    width: u32,
    words: &'b [u64],
}

impl<'b> Model for LabelView<'b> {
    ghost use Rattle.dd_set.specs.Words.{Label, IsPacked};

    ghost Value = { Label };

    ghost view = { λ v. record { width = v.width; words = v.words.now } };

    ghost invariant = { λ v. IsPacked v.width v.words.now };
}

impl<'b> LabelView<'b> {
    pub(crate) fn new(width: u32, words: &'b [u64]) -> LabelView<'b>
        requires { IsPacked width words.now }
        ensures width { result.width ≡ width }
        ensures words { result.words ≡ words.now }
    {
        LabelView { width, words }
    }

    /// Whether the number is in the label.
    pub fn contains(&self, n: u32) -> bool
        ensures { result ≡ has self.now.words n }
    {
        has_number(self.words, n)
    }

    /// The least number of the label that is at least `n`.
    pub fn next_from(&self, n: u32) -> Option<u32>
        ensures next { IsNext self.now.words n result }
        ensures below { IfSome result (λ m. m < self.now.width) }
    {
        next_number(self.words, n)
    }

    /// An equal set.
    pub fn to_bits(&self, alloc: Global) -> Result<Bits, NoMemory>
        ensures { IfOk result (λ b. b ≡ self.now) }
    {
        Bits::from_words(alloc, self.width, self.words)
    }

    /// All numbers are below it.
    pub fn width(&self) -> u32
        ensures width { result ≡ self.now.width }
        ensures packed { IsPacked self.now.width self.now.words }
    {
        self.width
    }

    /// The words, for the functions over words of `dd_set`.
    pub fn words(&self) -> &'b [u64]
        ensures words { result.now ≡ self.now.words }
        ensures packed { IsPacked self.now.width self.now.words }
    {
        self.words
    }
}
