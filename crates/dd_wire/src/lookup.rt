ghost use Rattle.std.specs.Prelude.{IfOk, IsTrue, Some, ◌≡◌};
ghost use Rattle.std.specs.List.{list_all};
ghost use Rattle.std.specs.Option.{option_copied};
ghost use Rattle.dd_wire.specs.Forms.{written_of};
ghost use Rattle.dd_wire.specs.Placed.{are_distinct, are_peers};
ghost use Rattle.dd_text.specs.Names.{names_a_thing};
ghost use Rattle.dd_text.specs.Symbols.{Grows, SymbolLists, has_text};
ghost use Rattle.dd_wire.specs.Forms.{peers, put, versions};
ghost use Rattle.dd_wire.specs.Texts.{has_room};
ghost use Rattle.dd_wire.specs.Progress.{IsPeer, ReadsOn, ReadsQuery, asked, checked};
ghost use Rattle.dd_wire.specs.Requests.{ReadsRequest, Tests, declared_names, IsNumberedRequest, IsWrittenRequest};

use crate::code::{BAD_PEERS, NO_PEERS, PEERS_TWICE, UNKNOWN_PEER};
use crate::form::{Form, RuleForm};
use crate::names::Names;
use crate::request::{Request, WireErr};
use crate::texts::{axioms, concept, finish, finish_with, no_texts, rules};
use dd_concept::Items;
use dd_json::Text;
use dd_peer::{PeerVersion, Pin, Query};
use dd_text::{Symbols, is_name};
use serde_json::Value;
use std::alloc::Global;

/// The most peers that are declared.
const MOST_PEERS: usize = 64;

/// The request of a form, whose names are looked up and whose texts are read. It is refused by the first test that fails,
/// in this order: `NO_PEERS`, `PEERS_TWICE`, `BAD_PEERS`, `UNKNOWN_PEER`; `BAD_CONCEPT` and `CONCEPT_LIMIT`, each with the
/// number of the first such text; and `SYMBOLS_FULL`. After a refusal the symbols are as before.
pub fn resolve(
    alloc: Global,
    symbols: &mut Symbols,
    names: Option<&Names>,
    form: Form,
) -> Result<Request, WireErr>
    ensures reads { ReadsRequest (Tests (option_copied names.entry) symbols.old (written_of form)) (declared_names (option_copied names.entry)) symbols.old symbols.new result }
    ensures numbered { IfOk result IsNumberedRequest }
    ensures written { IfOk result (IsWrittenRequest symbols.new) }
    ensures grows { Grows symbols.old symbols.new }
{
    let mark = symbols.mark();
    match request_of(alloc, symbols, names, form) {
        Ok(request) => Ok(request),
        Err(e) => {
            symbols.back(mark);
            Err(e)
        }
    }
}

/// As `resolve`, but after a refusal there may be more symbols.
fn request_of(
    alloc: Global,
    symbols: &mut Symbols,
    names: Option<&Names>,
    form: Form,
) -> Result<Request, WireErr>
    requires { IsTrue (has_room symbols.old) }
    ensures reads { ReadsOn (Tests (option_copied names.entry) symbols.old (written_of form)) (declared_names (option_copied names.entry)) symbols.old symbols.new result }
    ensures numbered { IfOk result IsNumberedRequest }
{
    match form {
        Form::Peers(wanted) => peers(names, wanted),
        Form::Put {
            peer,
            axioms,
            into,
            onto,
        } => put_of(alloc, symbols, names, &peer, &axioms, &into, &onto),
        Form::Ask {
            peer,
            left,
            right,
            expansions,
            verdicts,
        } => {
            let asked = query_of(alloc, symbols, names, &peer, &left, &right);
            ask(asked, expansions, verdicts)
        }
        Form::Check {
            peer,
            left,
            right,
            pin,
            cert,
        } => {
            let checked = query_of(alloc, symbols, names, &peer, &left, &right);
            check(checked, pin, cert)
        }
        Form::Versions => versions(names),
    }
}

fn peers(names: Option<&Names>, wanted: Items<Text>) -> Result<Request, WireErr>
    ensures reads { (s : SymbolLists) → IsTrue (has_room s) → ReadsOn (Tests (option_copied names.entry) s (peers wanted)) (declared_names (option_copied names.entry)) s s result }
    ensures numbered { IfOk result IsNumberedRequest }
{
    if names.is_some() {
        return Err(WireErr::Code {
            code: PEERS_TWICE,
            n: None,
        });
    }
    if !are_peers(wanted.as_slice()) {
        return Err(WireErr::Code {
            code: BAD_PEERS,
            n: None,
        });
    }
    Ok(Request::Peers(wanted))
}

/// Whether these are 1 to 64 different names.
pub fn are_peers(names: &[Text]) -> bool
    ensures { result ≡ are_peers names.now }
{
    1 <= names.len() && names.len() <= MOST_PEERS && are_all_names(names) && are_distinct(names)
}

fn are_all_names(names: &[Text]) -> bool
    ensures { result ≡ list_all names_a_thing names.now }
{
    names.iter().all(|name| is_name(name.as_slice()))
}

fn are_distinct(names: &[Text]) -> bool
    ensures { result ≡ are_distinct names.now }
{
    for (i, name) in names.iter().enumerate() {
        if has_text(&names[i + 1..], name.as_slice()) {
            return false;
        }
    }
    true
}

fn has_text(names: &[Text], name: &[u8]) -> bool
    ensures { result ≡ has_text names.now name.now }
{
    names.iter().any(|other| name == other.as_slice())
}

fn versions(names: Option<&Names>) -> Result<Request, WireErr>
    ensures reads { (s : SymbolLists) → IsTrue (has_room s) → ReadsOn (Tests (option_copied names.entry) s versions) (declared_names (option_copied names.entry)) s s result }
    ensures numbered { IfOk result IsNumberedRequest }
{
    if names.is_none() {
        return Err(WireErr::Code {
            code: NO_PEERS,
            n: None,
        });
    }
    Ok(Request::Versions)
}

fn peer_number(names: Option<&Names>, peer: &[u8]) -> Result<u32, WireErr>
    ensures { IsPeer (option_copied names.entry) peer.now result }
{
    match names {
        Some(names) => declared(names, peer),
        None => Err(WireErr::Code {
            code: NO_PEERS,
            n: None,
        }),
    }
}

fn declared(names: &Names, peer: &[u8]) -> Result<u32, WireErr>
    ensures { IsPeer (Some names.now) peer.now result }
{
    match names.number(peer) {
        Some(number) => Ok(number),
        None => Err(WireErr::Code {
            code: UNKNOWN_PEER,
            n: None,
        }),
    }
}

fn query(
    alloc: Global,
    symbols: &mut Symbols,
    names: Option<&Names>,
    peer: &[u8],
    left: &[u8],
    right: &[u8],
) -> Result<Query, WireErr>
    requires { IsTrue (has_room symbols.old) }
    ensures { ReadsQuery (option_copied names.entry) symbols.old peer.now left.now right.now symbols.new result }
{
    let peer = match peer_number(names, peer) {
        Ok(number) => number,
        Err(e) => return Err(e),
    };
    let mut tally = no_texts();
    let left = match concept(alloc, symbols, &mut tally, left) {
        Ok(c) => c,
        Err(e) => return Err(e),
    };
    let right = match concept(alloc, symbols, &mut tally, right) {
        Ok(c) => c,
        Err(e) => {
            drop(left);
            return Err(e);
        }
    };
    finish_with(tally, Query { peer, left, right })
}

fn query_of(
    alloc: Global,
    symbols: &mut Symbols,
    names: Option<&Names>,
    peer: &Text,
    left: &Text,
    right: &Text,
) -> Result<Query, WireErr>
    requires { IsTrue (has_room symbols.old) }
    ensures { ReadsQuery (option_copied names.entry) symbols.old peer.now left.now right.now symbols.new result }
{
    query(
        alloc,
        symbols,
        names,
        peer.as_slice(),
        left.as_slice(),
        right.as_slice(),
    )
}

fn ask(
    query: Result<Query, WireErr>,
    expansions: Option<u64>,
    verdicts: Option<u64>,
) -> Result<Request, WireErr>
    ensures { result ≡ asked query expansions verdicts }
{
    match query {
        Ok(query) => Ok(Request::Ask {
            query,
            expansions,
            verdicts,
        }),
        Err(e) => Err(e),
    }
}

fn check(query: Result<Query, WireErr>, pin: Items<u32>, cert: Value) -> Result<Request, WireErr>
    ensures { result ≡ checked query pin cert }
{
    match query {
        Ok(query) => Ok(Request::Check {
            query,
            pin: Pin { versions: pin },
            cert,
        }),
        Err(e) => Err(e),
    }
}

fn put_of(
    alloc: Global,
    symbols: &mut Symbols,
    names: Option<&Names>,
    peer: &Text,
    axioms: &Items<Text>,
    into: &Items<RuleForm>,
    onto: &Items<RuleForm>,
) -> Result<Request, WireErr>
    requires { IsTrue (has_room symbols.old) }
    ensures reads { ReadsOn (Tests (option_copied names.entry) symbols.old (put peer.now axioms.now into.now onto.now)) (declared_names (option_copied names.entry)) symbols.old symbols.new result }
    ensures numbered { IfOk result IsNumberedRequest }
{
    put(
        alloc,
        symbols,
        names,
        peer.as_slice(),
        axioms.as_slice(),
        into.as_slice(),
        onto.as_slice(),
    )
}

fn put(
    alloc: Global,
    symbols: &mut Symbols,
    names: Option<&Names>,
    peer: &[u8],
    axiom_texts: &[Text],
    into_forms: &[RuleForm],
    onto_forms: &[RuleForm],
) -> Result<Request, WireErr>
    requires { IsTrue (has_room symbols.old) }
    ensures reads { ReadsOn (Tests (option_copied names.entry) symbols.old (put peer.now axiom_texts.now into_forms.now onto_forms.now)) (declared_names (option_copied names.entry)) symbols.old symbols.new result }
    ensures numbered { IfOk result IsNumberedRequest }
{
    let peer = match peer_number(names, peer) {
        Ok(number) => number,
        Err(e) => return Err(e),
    };
    let mut tally = no_texts();
    let axioms = match axioms(alloc, symbols, &mut tally, axiom_texts) {
        Ok(axioms) => axioms,
        Err(e) => return Err(e),
    };
    let into = match rules(alloc, symbols, &mut tally, names, into_forms) {
        Ok(rules) => rules,
        Err(e) => return Err(e),
    };
    let onto = match rules(alloc, symbols, &mut tally, names, onto_forms) {
        Ok(rules) => rules,
        Err(e) => return Err(e),
    };
    match finish(tally) {
        Ok(()) => Ok(Request::Put {
            peer,
            version: PeerVersion { axioms, into, onto },
        }),
        Err(e) => Err(e),
    }
}
