// Concepts of a closure by their numbers.
ghost use Rattle.std.specs.Prelude.{◌≡◌, ◌==◌, ◌||◌, ◌<◌, ℕ, true, IfOk, length};
ghost use Rattle.dd_concept.specs.Normal.{nnf_of, nnf_not_of};
ghost use Rattle.dd_concept.specs.Same.{has, is_within};
ghost use Rattle.dd_rules.specs.Numbers.{place_of};
ghost use Rattle.dd_set.specs.Words as words;
ghost use Rattle.dd_run.specs.Numbers.{AreNumbersOf};

use dd_concept::{Concept, nnf, nnf_not};
use dd_rules::Compiled;
use dd_set::{Bits, NoMemory};
use std::alloc::Global;

/// The number of a concept of the closure.
pub(crate) fn number_in(compiled: &Compiled, c: &Concept) -> u32
    requires { has compiled.now.concepts c.now ≡ true }
    ensures number { result ≡ place_of compiled.now.concepts c.now }
    ensures below { result < length compiled.now.concepts }
{
    match compiled.number(c) {
        Some(n) => n,
        None => unreachable!(),
    }
}

/// The number of the concept's normal form.
pub(crate) fn normal_number(
    alloc: Global,
    compiled: &Compiled,
    c: &Concept,
) -> Result<u32, NoMemory>
    requires { has compiled.now.concepts (nnf_of c.now) ≡ true }
    ensures { IfOk result (λ n. n ≡ place_of compiled.now.concepts (nnf_of c.now)) }
{
    let normal = nnf(alloc, c)?;
    Ok(number_in(compiled, &normal))
}

/// The number of the normal form of the concept's complement.
pub(crate) fn complement_number(
    alloc: Global,
    compiled: &Compiled,
    c: &Concept,
) -> Result<u32, NoMemory>
    requires { has compiled.now.concepts (nnf_not_of c.now) ≡ true }
    ensures { IfOk result (λ n. n ≡ place_of compiled.now.concepts (nnf_not_of c.now)) }
{
    let complement = nnf_not(alloc, c)?;
    Ok(number_in(compiled, &complement))
}

/// The set of the concepts' numbers.
pub(crate) fn numbers_for(
    alloc: Global,
    compiled: &Compiled,
    concepts: &[Concept],
) -> Result<Bits, NoMemory>
    requires { is_within concepts.now compiled.now.concepts ≡ true }
    ensures width { IfOk result (λ b. b.width ≡ length compiled.now.concepts) }
    ensures numbers { IfOk result (λ b. AreNumbersOf compiled.now.concepts concepts.now b.words) }
{
    let mut label = Bits::new(alloc, compiled.count())?;
    for c in concepts {
        put(compiled, &mut label, c);
    }
    Ok(label)
}

/// Puts the number of a concept of the closure into the label.
fn put(compiled: &Compiled, label: &mut Bits, c: &Concept)
    requires width { label.old.width ≡ length compiled.now.concepts }
    requires there { has compiled.now.concepts c.now ≡ true }
    ensures width { label.new.width ≡ label.old.width }
    ensures with { (k : ℕ) → words.has label.new.words k ≡ ((k == place_of compiled.now.concepts c.now) || words.has label.old.words k) }
{
    label.insert(number_in(compiled, c));
}
