//! The part of a list that is of one symbol, where the list goes by symbols.
ghost use Rattle.std.specs.Prelude.{◌≡◌, ◌==◌, filter};
ghost use Rattle.std.specs.List.Sorted.{IsNonDecreasingBy};

/// The pairs of one concept name.
pub fn of_name(names: &[(u32, u32)], a: u32) -> &[(u32, u32)]
    requires { IsNonDecreasingBy (λ p. p.0) names.now }
    ensures { result.now ≡ filter (λ p. p.0 == a) names.now }
{
    let (_, rest) = names.split_at(names.partition_point(|p| p.0 < a));
    let (group, _) = rest.split_at(rest.partition_point(|p| p.0 <= a));
    group
}

/// The triples of one role.
pub fn of_role(roles: &[(u32, u32, u32)], r: u32) -> &[(u32, u32, u32)]
    requires { IsNonDecreasingBy (λ t. t.0) roles.now }
    ensures { result.now ≡ filter (λ t. t.0 == r) roles.now }
{
    let (_, rest) = roles.split_at(roles.partition_point(|t| t.0 < r));
    let (group, _) = rest.split_at(rest.partition_point(|t| t.0 <= r));
    group
}
