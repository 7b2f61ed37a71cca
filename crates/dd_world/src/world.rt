use dd_concept::Items;
use dd_interp::Interp;

/// A world: a local interpretation per peer, in the order of the peers, and links. The link (i, j, a, b) leads from element
/// a of peer i to element b of peer j. Order and repeats of links mean nothing.
#[derive(Drop)]
pub struct World {
    pub locals: Items<Interp>,
    pub links: Items<(u32, u32, u32, u32)>,
}

/// Why a world is no countermodel. Peers are numbered from 0, and so are the axioms, the into rules and the onto rules of a
/// version, each in its whole list.
#[derive(Clone, Copy, Debug, PartialEq, Eq)]
pub enum WorldFault {
    /// There is not one interpretation per peer, or an interpretation or a link names an element or a peer that is not
    /// there, or a link leads from a peer to itself.
    Shape,
    /// The interpretation of `peer` does not satisfy the axiom `index` of its version.
    Axiom { peer: u32, index: u32 },
    /// The links do not satisfy the into rule `index` that `peer` keeps.
    Into { peer: u32, index: u32 },
    /// The links do not satisfy the onto rule `index` that `peer` keeps.
    Onto { peer: u32, index: u32 },
    /// No element of the query's peer has the left concept and lacks the right one.
    NotCounter,
}
