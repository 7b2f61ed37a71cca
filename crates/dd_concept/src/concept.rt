use sqlite_items::Boxed;

/// A concept of ALC. Names and roles are numbers; which texts they stand for is no part of a concept.
#[derive(Drop)]
pub enum Concept {
    Top,
    Bottom,
    Name(u32),
    Not(Boxed<Concept>),
    And(Boxed<Concept>, Boxed<Concept>),
    Or(Boxed<Concept>, Boxed<Concept>),
    HasSome(u32, Boxed<Concept>),
    HasAll(u32, Boxed<Concept>),
}

/// A general axiom: each element of the left concept is one of the right concept.
#[derive(Drop)]
pub struct Axiom {
    pub left: Concept,
    pub right: Concept,
}
