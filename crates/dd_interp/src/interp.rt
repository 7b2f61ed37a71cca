use dd_concept::Items;

/// A local interpretation: the elements 0 to `size` - 1, the pairs (name, x) of an element x in a concept name, and the
/// triples (role, x, y) of a pair of elements in a role. Order and repeats mean nothing.
#[derive(Drop)]
pub struct Interp {
    pub size: u32,
    pub names: Items<(u32, u32)>,
    pub roles: Items<(u32, u32, u32)>,
}
