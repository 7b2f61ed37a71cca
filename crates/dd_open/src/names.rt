//! The names of a model in the making.
ghost use Rattle.std.specs.Prelude.{◌≡◌, ◌<◌, ◌++◌, All, Some, OnOk, length, map};
ghost use Rattle.dd_rules.specs.Numbers.{shape_of};
ghost use Rattle.dd_open.specs.Builds.{name_pair, name_pairs};

use dd_rules::{Compiled, Shape};
use dd_set::NoMemory;

fn add_name(names: &mut Vec<(u32, u32)>, shape: Shape, x: u32) -> Result<(), NoMemory>
    ensures { OnOk result (names.new.items ≡ names.old.items ++ name_pair (Some shape) x) }
{
    match shape {
        Shape::Name(a) => names.push((a, x))?,
        _ => {}
    }
    Ok(())
}

/// Adds a pair for each name among the numbers of the element's label.
pub(crate) fn add_names(
    compiled: &Compiled,
    names: &mut Vec<(u32, u32)>,
    numbers: &[u32],
    x: u32,
) -> Result<(), NoMemory>
    requires { All (λ n. n < length compiled.now.concepts) numbers.now }
    ensures { OnOk result (names.new.items ≡ names.old.items ++ name_pairs (map (shape_of compiled.now.concepts) compiled.now.concepts) numbers.now x) }
{
    for n in numbers.iter() {
        add_name(names, compiled.shape(*n), x)?;
    }
    Ok(())
}
