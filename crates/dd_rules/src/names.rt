ghost use Rattle.std.specs.Prelude.{◌≡◌, false, None};
ghost use Rattle.std.specs.List.{list_any, slice_index_or};
ghost use Rattle.std.specs.Option.{option_map_or};
ghost use Rattle.dd_set.specs.Words.{has};
ghost use Rattle.dd_rules.specs.Numbers.{decides_axiom, decides_prop, has_all, has_joined, keeps_axiom, lacks_joined};
ghost use Rattle.dd_rules.specs.Tables.{prop_with};

use crate::tables::AxiomNumbers;
use dd_concept::Items;
use dd_set::Bits;

fn has_name(label: &Bits, name: Option<u32>) -> bool
    ensures { result ≡ option_map_or (has label.now.words) name false }
{
    match name {
        Some(n) => label.contains(n),
        None => false,
    }
}

/// Whether the label has all of the names.
fn has_all(label: &Bits, names: &[Option<u32>]) -> bool
    ensures { result ≡ has_all (has label.now.words) names.now }
{
    names.iter().all(|name| has_name(label, *name))
}

/// Whether there is a conjunction of names and the label has it.
pub(crate) fn has_joined(label: &Bits, joined: &Option<Items<Option<u32>>>) -> bool
    ensures { result ≡ has_joined (has label.now.words) joined.now }
{
    match joined {
        Some(names) => has_all(label, names.as_slice()),
        None => false,
    }
}

/// Whether there is a conjunction of names and the label does not have it.
fn lacks_joined(label: &Bits, joined: &Option<Items<Option<u32>>>) -> bool
    ensures { result ≡ lacks_joined (has label.now.words) joined.now }
{
    match joined {
        Some(names) => !has_all(label, names.as_slice()),
        None => false,
    }
}

fn lacks_at(label: &Bits, joined: &[Option<Items<Option<u32>>>], n: u32) -> bool
    ensures { result ≡ lacks_joined (has label.now.words) (slice_index_or joined.now n None) }
{
    match joined.get(n as usize) {
        Some(names) => lacks_joined(label, names),
        None => false,
    }
}

/// Whether the axiom adds nothing to the label, or its left side is no conjunction of names that the label has.
pub(crate) fn keeps_axiom(label: &Bits, row: &AxiomNumbers) -> bool
    ensures { result ≡ keeps_axiom (has label.now.words) row.now }
{
    !has_joined(label, &row.joined) || label.contains(row.right)
}

pub(crate) fn decides_axiom(label: &Bits, row: &AxiomNumbers) -> bool
    ensures { result ≡ decides_axiom (has label.now.words) row.now }
{
    if label.contains(row.right) || label.contains(row.left) {
        return true;
    }
    lacks_joined(label, &row.joined)
}

fn has_some(label: &Bits, numbers: &[u32]) -> bool
    ensures { result ≡ list_any (has label.now.words) numbers.now }
{
    numbers.iter().any(|n| label.contains(*n))
}

pub(crate) fn decides_prop(
    label: &Bits,
    joined: &[Option<Items<Option<u32>>>],
    prop: &(u32, u32, Items<u32>),
) -> bool
    ensures { result ≡ decides_prop (has label.now.words) (prop_with joined.now prop.now) }
{
    if label.contains(prop.1) || lacks_at(label, joined, prop.0) {
        return true;
    }
    has_some(label, prop.2.as_slice())
}
