ghost use Rattle.std.specs.Prelude.{◌↔◌, ◌<◌, All, IsTrue};
ghost use Rattle.dd_interp.specs.Satisfies.{IsShaped};

use crate::interp::Interp;

/// Whether each element that the two lists name is one of the domain.
pub fn is_shaped(i: &Interp) -> bool
    ensures { IsTrue result ↔ IsShaped i.now }
{
    has_shaped_names(i.names.as_slice(), i.size) && has_shaped_roles(i.roles.as_slice(), i.size)
}

fn has_shaped_names(names: &[(u32, u32)], size: u32) -> bool
    ensures { IsTrue result ↔ All (λ p. p.1 < size) names.now }
{
    names.iter().all(|p| p.1 < size)
}

fn has_shaped_roles(roles: &[(u32, u32, u32)], size: u32) -> bool
    ensures { IsTrue result ↔ All (λ t. (t.1 < size) × (t.2 < size)) roles.now }
{
    roles.iter().all(|t| t.1 < size && t.2 < size)
}
