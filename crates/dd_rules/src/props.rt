use dd_concept::Items;

/// The propagations into a peer, each by numbers of the peer's concepts: the number of its onto target's normal form, that of
/// the normal form of the onto target's complement, and those of the normal forms of its into targets, in the order of the rules.
#[derive(Drop)]
pub struct Props {
    pub list: Items<(u32, u32, Items<u32>)>,
}
