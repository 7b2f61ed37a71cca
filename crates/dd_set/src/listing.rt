//! The list of a set's numbers.
ghost use Rattle.std.specs.Prelude.{◌≡◌, ◌<◌, IfOk, IfSome};
ghost use Rattle.dd_set.specs.Words.{IsNext, IsPacked};
ghost use Rattle.dd_set.specs.Sets.{numbers};

use crate::NoMemory;
use crate::bits::Bits;
use crate::words::next_number;
use std::alloc::Global;

/// The numbers of the set, rising.
pub fn numbers_of(alloc: Global, label: &Bits) -> Result<Vec<u32>, NoMemory>
    ensures { IfOk result (λ v. v.items ≡ numbers label.now.words label.now.width) }
{
    numbers_in(alloc, label.width(), label.words())
}

/// The numbers of the set that has these words and this width, rising.
pub fn numbers_in(alloc: Global, width: u32, words: &[u64]) -> Result<Vec<u32>, NoMemory>
    requires { IsPacked width words.now }
    ensures { IfOk result (λ v. v.items ≡ numbers words.now width) }
{
    let mut list = Vec::new(alloc);
    let mut from = 0;
    while let Some(n) = next_below(width, words, from) {
        list.push(n)?;
        from = n + 1;
    }
    Ok(list)
}

fn next_below(width: u32, words: &[u64], n: u32) -> Option<u32>
    requires { IsPacked width words.now }
    ensures next { IsNext words.now n result }
    ensures below { IfSome result (λ m. m < width) }
{
    next_number(words, n)
}
