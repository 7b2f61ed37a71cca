use dd_concept::Items;
use dd_json::Text;
use dd_peer::Pin;
use serde_json::Value;

/// Where the answer to an ask comes from.
#[derive(Drop)]
pub enum Origin {
    /// It was searched for.
    Search,
    /// It was kept from an ask before.
    Cache,
}

/// Why a world is no countermodel. Peers are numbered in declared order, and axioms and rules in their lists, from 0.
#[derive(Drop)]
pub enum BadWorld {
    Shape,
    NotCounter,
    Axiom { index: u32, peer: u32 },
    Into { index: u32, peer: u32 },
    Onto { index: u32, peer: u32 },
}

/// Where a certificate cannot be read.
#[derive(Drop)]
pub enum Unread {
    /// The member of the certificate that has another form.
    Field(&'static str),
    /// The number that is too large, and its place among all numbers but `format`, from 0.
    Place { place: u32, value: u64 },
    /// The place of the first text that is none, among all texts of the certificate, from 0.
    Text(u32),
}

/// A reply. `id` is the number of its request, from 1 on. `pin` names the versions that an answer speaks of.
#[derive(Drop)]
pub enum Reply {
    Refused {
        id: u64,
        code: u8,
        n: Option<u64>,
    },
    Peers {
        id: u64,
        count: u32,
    },
    Put {
        id: u64,
        put: Text,
        version: u32,
    },
    /// The certificate is a derivation for a yes and a world for a no.
    Decided {
        id: u64,
        yes: bool,
        from: Origin,
        pin: Pin,
        cert: Value,
    },
    /// The run at this peer put as many labels as it may, which is `count`, and would have put another.
    RunSpent {
        id: u64,
        count: u64,
        peer: u32,
        from: Origin,
        pin: Pin,
    },
    /// As many verdicts were posted as may be, which is `count`.
    VerdictsSpent {
        id: u64,
        count: u64,
        from: Origin,
        pin: Pin,
    },
    /// There was no memory for an answer to an ask.
    Memory {
        id: u64,
        from: Origin,
        pin: Pin,
    },
    Valid {
        id: u64,
    },
    /// The lines of a check derive nothing. `at` is the first that is not right, from 0, and the number of the lines where
    /// all are right and the last does not say what is asked.
    InvalidLines {
        id: u64,
        at: u32,
    },
    InvalidWorld {
        id: u64,
        fault: BadWorld,
    },
    Unreadable {
        id: u64,
        what: Unread,
    },
    /// The number of each peer's last version.
    Versions {
        id: u64,
        versions: Pin,
    },
}
