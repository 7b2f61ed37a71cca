ghost use Rattle.std.specs.Prelude.{◌≡◌, ◌+◌, ◌^◌, ◌<◌, ◌++◌, All, IfOk, OnErr, OnOk, map};
ghost use Rattle.dd_interp.specs.Satisfies.{IsShaped};
ghost use Rattle.dd_interp.specs.Union.{KeepsEach, raise_name, raise_role, union_of};

use crate::interp::Interp;
use dd_concept::NoMemory;
use std::alloc::Global;

/// Puts the elements of `other` behind those of `i`, as a disjoint union. Without memory for it `i` stays as it was.
pub fn append(alloc: Global, i: &mut Interp, other: &Interp) -> Result<(), NoMemory>
    requires shaped { IsShaped i.old }
    requires other_shaped { IsShaped other.now }
    requires fits { i.old.size + other.now.size < 2 ^ 32 }

    ensures union { OnOk result (i.new ≡ union_of i.old other.now) }
    ensures shaped { OnOk result (IsShaped i.new) }
    ensures kept { OnOk result (KeepsEach i.old other.now i.new) }
    ensures err { OnErr result (i.new ≡ i.old) }
{
    let names = raised_names(alloc, other.names.as_slice(), i.size)?;
    let roles = raised_roles(alloc, other.roles.as_slice(), i.size)?;
    extend(i, other.size, names.as_slice(), roles.as_slice())
}

fn raised_names(alloc: Global, names: &[(u32, u32)], by: u32) -> Result<Vec<(u32, u32)>, NoMemory>
    requires { All (λ p. p.1 + by < 2 ^ 32) names.now }
    ensures { IfOk result (λ v. v.items ≡ map (raise_name by) names.now) }
{
    let mut raised = Vec::new(alloc);
    for p in names {
        raised.push((p.0, p.1 + by))?;
    }
    Ok(raised)
}

fn raised_roles(
    alloc: Global,
    roles: &[(u32, u32, u32)],
    by: u32,
) -> Result<Vec<(u32, u32, u32)>, NoMemory>
    requires { All (λ t. (t.1 + by < 2 ^ 32) × (t.2 + by < 2 ^ 32)) roles.now }
    ensures { IfOk result (λ v. v.items ≡ map (raise_role by) roles.now) }
{
    let mut raised = Vec::new(alloc);
    for t in roles {
        raised.push((t.0, t.1 + by, t.2 + by))?;
    }
    Ok(raised)
}

fn extend(
    i: &mut Interp,
    size: u32,
    names: &[(u32, u32)],
    roles: &[(u32, u32, u32)],
) -> Result<(), NoMemory>
    requires { i.old.size + size < 2 ^ 32 }
    ensures ok { OnOk result (i.new ≡ record {
      size = i.old.size + size;
      names = i.old.names ++ names.now;
      roles = i.old.roles ++ roles.now;
    }) }
    ensures err { OnErr result (i.new ≡ i.old) }
{
    let before = i.names.as_slice().len();
    i.names.extend_from_slice(names)?;
    match i.roles.extend_from_slice(roles) {
        Ok(()) => {
            i.size += size;
            Ok(())
        }
        Err(e) => {
            i.names.truncate(before);
            Err(e)
        }
    }
}
