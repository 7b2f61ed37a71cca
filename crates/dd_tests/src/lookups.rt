ghost use Rattle.std.specs.Prelude.{⊤};

use crate::rows::{Failure, Row, check};
use dd_concept::{Axiom, Concept, Items, NoMemory};
use dd_json::Text;
use dd_peer::{PeerVersion, Rule};
use dd_text::Symbols;
use dd_wire::{Names, Request, WireErr, are_peers, read_request};
use std::alloc::Global;

/// A line of a new session, where the peers `Here` and `There` may be declared: its code, and how many names and roles
/// it leaves.
struct Line {
    is_declared: bool,
    line: &'static [u8],
    code: (u8, Option<u64>),
    symbols: (u32, u32),
}

impl Row for Line {
    ghost answers = { λ row yes. ⊤ };

    fn is_right(&self, alloc: Global) -> Result<bool, NoMemory> {
        if !self.is_declared {
            return gives(alloc, None, self);
        }
        let names = two_peers(alloc)?;
        let is_right = gives(alloc, Some(&names), self);
        drop(names);
        is_right
    }
}

fn gives(alloc: Global, names: Option<&Names>, line: &Line) -> Result<bool, NoMemory> {
    let mut symbols = Symbols::new(alloc)?;
    let code = code_of(alloc, &mut symbols, names, line.line);
    let has_counts = has_counts(&symbols, line.symbols);
    drop(symbols);
    Ok(code == line.code && has_counts)
}

fn has_counts(symbols: &Symbols, counts: (u32, u32)) -> bool {
    symbols.name_count() == counts.0 && symbols.role_count() == counts.1
}

fn code_of(
    alloc: Global,
    symbols: &mut Symbols,
    names: Option<&Names>,
    line: &[u8],
) -> (u8, Option<u64>) {
    told(read_request(alloc, symbols, names, line))
}

/// 0 for a request, 254 for a put that is not the one of the table, 255 for want of memory, else the code.
fn told(answer: Result<Request, WireErr>) -> (u8, Option<u64>) {
    let code = match &answer {
        Ok(request) => (if is_right(request) { 0 } else { 254 }, None),
        Err(e) => cause(e),
    };
    drop(answer);
    code
}

fn cause(e: &WireErr) -> (u8, Option<u64>) {
    match e {
        WireErr::Code { code, n } => (*code, *n),
        WireErr::NoMemory => (255, None),
    }
}

/// Whether a put is the one of the table.
fn is_right(request: &Request) -> bool {
    match request {
        Request::Put { peer, version } => *peer == 0 && is_that_version(version),
        _ => true,
    }
}

fn is_that_version(version: &PeerVersion) -> bool {
    match version.axioms.as_slice() {
        [_, axiom] => {
            is_that_axiom(axiom)
                && is_rule(version.into.as_slice(), 1)
                && is_rule(version.onto.as_slice(), 4_294_967_295)
        }
        _ => false,
    }
}

fn is_rule(rules: &[Rule], from: u32) -> bool {
    match rules {
        [rule] => rule.from == from,
        _ => false,
    }
}

/// Whether the axiom says that name 1 is below what has role 0.
fn is_that_axiom(axiom: &Axiom) -> bool {
    matches!(axiom.left, Concept::Name(1)) && matches!(axiom.right, Concept::HasSome(0, _))
}

fn two_peers(alloc: Global) -> Result<Names, NoMemory> {
    let texts = texts(alloc, PEERS)?;
    let names = names_of(alloc, &texts);
    drop(texts);
    names
}

fn names_of(alloc: Global, texts: &Items<Text>) -> Result<Names, NoMemory> {
    if are_peers(texts.as_slice()) {
        Names::new(alloc, texts)
    } else {
        Err(NoMemory)
    }
}

const PEERS: &[&[u8]] = &[b"Here", b"There"];

fn texts(alloc: Global, list: &[&[u8]]) -> Result<Items<Text>, NoMemory> {
    let mut texts = Items::new(alloc);
    for text in list {
        texts.push(Items::from_slice(alloc, text)?)?;
    }
    Ok(texts)
}

/// Two axioms and two rules, one of them from a peer that is not declared.
const PUT: &[u8] =
    br#"{"op":"put","peer":"Here","axioms":["(implies A B)","(implies B (some r A))"],
"into":[{"from":"There","source":"C","target":"A"}],"onto":[{"from":"Nowhere","source":"top","target":"D"}]}"#;

/// The third of its texts is cut, and the two before it have new symbols.
const CUT_PUT: &[u8] = br#"{"op":"put","peer":"Here","axioms":["(implies New (some r Old))"],
"into":[{"from":"There","source":"Newer","target":"(not"}]}"#;

/// The most peers that are declared, 16 in a row.
const MOST_PEERS: &[u8] = br#"{"op":"peers","names":[
"p00","p01","p02","p03","p04","p05","p06","p07","p08","p09","p0a","p0b","p0c","p0d","p0e","p0f",
"p10","p11","p12","p13","p14","p15","p16","p17","p18","p19","p1a","p1b","p1c","p1d","p1e","p1f",
"p20","p21","p22","p23","p24","p25","p26","p27","p28","p29","p2a","p2b","p2c","p2d","p2e","p2f",
"p30","p31","p32","p33","p34","p35","p36","p37","p38","p39","p3a","p3b","p3c","p3d","p3e","p3f"]}"#;

/// One more.
const MORE_PEERS: &[u8] = br#"{"op":"peers","names":[
"p00","p01","p02","p03","p04","p05","p06","p07","p08","p09","p0a","p0b","p0c","p0d","p0e","p0f",
"p10","p11","p12","p13","p14","p15","p16","p17","p18","p19","p1a","p1b","p1c","p1d","p1e","p1f",
"p20","p21","p22","p23","p24","p25","p26","p27","p28","p29","p2a","p2b","p2c","p2d","p2e","p2f",
"p30","p31","p32","p33","p34","p35","p36","p37","p38","p39","p3a","p3b","p3c","p3d","p3e","p3f",
"p40"]}"#;

const LINES: &[Line] = &[
    Line {
        is_declared: true,
        line: br#"{"op":"ask","peer":"There","left":"A","right":"(some r A)","expansions":7}"#,
        code: (0, None),
        symbols: (1, 1),
    },
    Line {
        is_declared: true,
        line: br#"{"op":"ask","peer":"Nowhere","left":"A B","right":"A","expansions":7}"#,
        code: (7, None),
        symbols: (0, 0),
    },
    Line {
        is_declared: true,
        line: br#"{"op":"ask","peer":"Here","left":"A B","right":"","expansions":7}"#,
        code: (3, Some(0)),
        symbols: (0, 0),
    },
    Line {
        is_declared: true,
        line: br#"{"op":"ask","peer":"Here","left":"A","right":"(not top","expansions":7}"#,
        code: (3, Some(1)),
        symbols: (0, 0),
    },
    Line {
        is_declared: false,
        line: br#"{"op":"peers","names":["A","B"]}"#,
        code: (0, None),
        symbols: (0, 0),
    },
    Line {
        is_declared: false,
        line: br#"{"op":"peers","names":[]}"#,
        code: (6, None),
        symbols: (0, 0),
    },
    Line {
        is_declared: false,
        line: br#"{"op":"peers","names":["A","B","A"]}"#,
        code: (6, None),
        symbols: (0, 0),
    },
    Line {
        is_declared: false,
        line: br#"{"op":"peers","names":["A","top"]}"#,
        code: (6, None),
        symbols: (0, 0),
    },
    Line {
        is_declared: false,
        line: MOST_PEERS,
        code: (0, None),
        symbols: (0, 0),
    },
    Line {
        is_declared: false,
        line: MORE_PEERS,
        code: (6, None),
        symbols: (0, 0),
    },
    Line {
        is_declared: true,
        line: br#"{"op":"peers","names":["A","B"]}"#,
        code: (5, None),
        symbols: (0, 0),
    },
    Line {
        is_declared: false,
        line: br#"{"op":"versions"}"#,
        code: (4, None),
        symbols: (0, 0),
    },
    Line {
        is_declared: true,
        line: PUT,
        code: (0, None),
        symbols: (4, 1),
    },
    Line {
        is_declared: true,
        line: CUT_PUT,
        code: (3, Some(2)),
        symbols: (0, 0),
    },
];

#[test]
fn a_form_is_refused_by_the_first_test(rt: HostRuntime) -> Result<(), Failure> {
    check(rt.alloc(), LINES)
}

/// A line, of a part so many times and of another one as often, and its code where no peers are declared.
struct Repeated {
    first: &'static [u8],
    last: &'static [u8],
    times: u8,
    code: u8,
}

impl Row for Repeated {
    ghost answers = { λ row yes. ⊤ };

    fn is_right(&self, alloc: Global) -> Result<bool, NoMemory> {
        let line = line_of(alloc, self)?;
        let is_right = has_code(alloc, line.as_slice(), self.code);
        drop(line);
        is_right
    }
}

fn line_of(alloc: Global, row: &Repeated) -> Result<Vec<u8>, NoMemory> {
    let mut line = Vec::new(alloc);
    for _ in 0..row.times {
        line.extend_from_slice(row.first)?;
    }
    for _ in 0..row.times {
        line.extend_from_slice(row.last)?;
    }
    Ok(line)
}

/// Whether a line has this code in a new session.
fn has_code(alloc: Global, line: &[u8], code: u8) -> Result<bool, NoMemory> {
    let mut symbols = Symbols::new(alloc)?;
    let answer = read_request(alloc, &mut symbols, None, line);
    drop(symbols);
    Ok(told(answer) == (code, None))
}

const REPEATED: &[Repeated] = &[
    Repeated {
        first: br#"{"op":"peers","#,
        last: br#""names":["a"]}"#,
        times: 1,
        code: 0,
    },
    Repeated {
        first: br#"{"op":"peers","#,
        last: br#""names":["top"]}"#,
        times: 1,
        code: 6,
    },
    Repeated {
        first: b"[",
        last: b"]",
        times: 127,
        code: 2,
    },
    Repeated {
        first: b"[",
        last: b"]",
        times: 128,
        code: 1,
    },
];

#[test]
fn a_line_is_read_to_its_request(rt: HostRuntime) -> Result<(), Failure> {
    check(rt.alloc(), REPEATED)
}
