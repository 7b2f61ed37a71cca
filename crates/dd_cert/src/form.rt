use dd_concept::Items;
use dd_json::Text;

/// A local interpretation as it is written: pairs of a name and an element, triples of a role and two elements.
#[derive(Drop)]
pub struct LocalForm {
    pub names: Items<(Text, u64)>,
    pub roles: Items<(Text, u64, u64)>,
    pub size: u64,
}

/// A world as it is written.
#[derive(Drop)]
pub struct WorldForm {
    pub links: Items<(u64, u64, u64, u64)>,
    pub locals: Items<LocalForm>,
}

/// The rules by which a line of a derivation may follow.
#[derive(Clone, Copy)]
pub enum Rule {
    Bottom,
    Clash,
    And,
    Or,
    Axiom,
    Cut,
    Successor,
    Bridge,
}

/// The reason of a line as it is written: a name and a concept are texts.
#[derive(Drop)]
pub enum WhyForm {
    Bottom,
    Clash {
        name: Text,
    },
    And {
        at: u64,
        cite: u64,
    },
    Or {
        at: u64,
        left: u64,
        right: u64,
    },
    Axiom {
        index: u64,
        left: u64,
        right: u64,
    },
    Cut {
        on: Text,
        yes: u64,
        no: u64,
    },
    Successor {
        at: u64,
        cite: u64,
    },
    Bridge {
        from: u64,
        onto: u64,
        into_set: Items<u64>,
        cite: u64,
        each: Items<u64>,
    },
}

/// A line of a derivation as it is written: the concepts of its label are texts.
#[derive(Drop)]
pub struct LineForm {
    pub peer: u64,
    pub label: Items<Text>,
    pub why: WhyForm,
}

/// The kinds of certificates.
#[derive(Clone, Copy)]
pub enum Kind {
    /// A derivation, for a yes.
    Yes,
    /// A world, for a no.
    No,
}

/// A certificate as it is written, by its kind.
#[derive(Drop)]
pub enum CertForm {
    Yes(Items<LineForm>),
    No(WorldForm),
}
