ghost use Rattle.std.specs.Prelude.{⊤};
ghost use Rattle.dd_wire.specs.Replies.{IsPrintable};

use crate::rows::{Failure, Row, check};
use dd_concept::NoMemory;
use dd_wire::{
    BAD_BUDGET, BAD_CONCEPT, BAD_JSON, BAD_PEERS, BAD_PIN, BAD_SHAPE, BadWorld, CLOSURE_FULL,
    CONCEPT_LIMIT, LINE_TOO_LONG, NO_PEERS, PEERS_TWICE, Reply, SAME_PEER, SYMBOLS_FULL,
    TOO_MANY_AXIOMS, TOO_MANY_RULES, UNKNOWN_PEER, UNKNOWN_SOURCE, VERSIONS_FULL, print_reply,
};
use std::alloc::Global;

fn prints(alloc: Global, reply: &Reply, text: &str) -> Result<bool, NoMemory>
    requires { IsPrintable reply.now }
{
    let printed = print_reply(alloc, reply)?;
    Ok(printed.as_slice() == text.as_bytes())
}

/// The code of a refusal, and the text of the reply.
struct Code {
    code: u8,
    text: &'static str,
}

impl Row for Code {
    ghost answers = { λ row yes. ⊤ };

    fn is_right(&self, alloc: Global) -> Result<bool, NoMemory> {
        let reply = Reply::Refused {
            id: 1,
            code: self.code,
            n: None,
        };
        let is_right = prints(alloc, &reply, self.text);
        drop(reply);
        is_right
    }
}

const CODES: &[Code] = &[
    Code {
        code: LINE_TOO_LONG,
        text: r#"{"code":16,"error":"line_too_long","id":1}"#,
    },
    Code {
        code: BAD_JSON,
        text: r#"{"code":1,"error":"bad_json","id":1}"#,
    },
    Code {
        code: BAD_SHAPE,
        text: r#"{"code":2,"error":"bad_shape","id":1}"#,
    },
    Code {
        code: VERSIONS_FULL,
        text: r#"{"code":13,"error":"versions_full","id":1}"#,
    },
    Code {
        code: NO_PEERS,
        text: r#"{"code":4,"error":"no_peers","id":1}"#,
    },
    Code {
        code: PEERS_TWICE,
        text: r#"{"code":5,"error":"peers_twice","id":1}"#,
    },
    Code {
        code: BAD_PEERS,
        text: r#"{"code":6,"error":"bad_peers","id":1}"#,
    },
    Code {
        code: UNKNOWN_PEER,
        text: r#"{"code":7,"error":"unknown_peer","id":1}"#,
    },
    Code {
        code: BAD_CONCEPT,
        text: r#"{"code":3,"error":"bad_concept","id":1}"#,
    },
    Code {
        code: CONCEPT_LIMIT,
        text: r#"{"code":11,"error":"concept_limit","id":1}"#,
    },
    Code {
        code: SYMBOLS_FULL,
        text: r#"{"code":12,"error":"symbols_full","id":1}"#,
    },
    Code {
        code: SAME_PEER,
        text: r#"{"code":8,"error":"same_peer","id":1}"#,
    },
    Code {
        code: UNKNOWN_SOURCE,
        text: r#"{"code":19,"error":"unknown_source","id":1}"#,
    },
    Code {
        code: TOO_MANY_AXIOMS,
        text: r#"{"code":9,"error":"too_many_axioms","id":1}"#,
    },
    Code {
        code: TOO_MANY_RULES,
        text: r#"{"code":10,"error":"too_many_rules","id":1}"#,
    },
    Code {
        code: BAD_BUDGET,
        text: r#"{"code":14,"error":"bad_budget","id":1}"#,
    },
    Code {
        code: CLOSURE_FULL,
        text: r#"{"code":15,"error":"closure_full","id":1}"#,
    },
    Code {
        code: BAD_PIN,
        text: r#"{"code":18,"error":"bad_pin","id":1}"#,
    },
];

#[test]
fn each_code_has_its_name(rt: HostRuntime) -> Result<(), Failure> {
    check(rt.alloc(), CODES)
}

/// The fault of a world, and the text of the reply.
struct Fault {
    fault: BadWorld,
    text: &'static str,
}

impl Row for Fault {
    ghost answers = { λ row yes. ⊤ };

    fn is_right(&self, alloc: Global) -> Result<bool, NoMemory> {
        let reply = Reply::InvalidWorld {
            id: 4,
            fault: again(&self.fault),
        };
        let is_right = prints(alloc, &reply, self.text);
        drop(reply);
        is_right
    }
}

/// The same fault once more.
fn again(fault: &BadWorld) -> BadWorld {
    match fault {
        BadWorld::Shape => BadWorld::Shape,
        BadWorld::NotCounter => BadWorld::NotCounter,
        BadWorld::Axiom { index, peer } => BadWorld::Axiom {
            index: *index,
            peer: *peer,
        },
        BadWorld::Into { index, peer } => BadWorld::Into {
            index: *index,
            peer: *peer,
        },
        BadWorld::Onto { index, peer } => BadWorld::Onto {
            index: *index,
            peer: *peer,
        },
    }
}

const FAULTS: &[Fault] = &[
    Fault {
        fault: BadWorld::Shape,
        text: r#"{"check":"invalid","fault":"shape","id":4}"#,
    },
    Fault {
        fault: BadWorld::NotCounter,
        text: r#"{"check":"invalid","fault":"not_counter","id":4}"#,
    },
    Fault {
        fault: BadWorld::Axiom { index: 1, peer: 0 },
        text: r#"{"check":"invalid","fault":"axiom","id":4,"index":1,"peer":0}"#,
    },
    Fault {
        fault: BadWorld::Into { index: 0, peer: 63 },
        text: r#"{"check":"invalid","fault":"into","id":4,"index":0,"peer":63}"#,
    },
    Fault {
        fault: BadWorld::Onto {
            index: 4294967295,
            peer: 2,
        },
        text: r#"{"check":"invalid","fault":"onto","id":4,"index":4294967295,"peer":2}"#,
    },
];

#[test]
fn a_fault_has_its_name_and_its_place(rt: HostRuntime) -> Result<(), Failure> {
    check(rt.alloc(), FAULTS)
}
