ghost use Rattle.std.specs.Prelude.{◌≡◌};
ghost use Rattle.dd_wire.specs.Refusal.{error_name};

/// The line has more bytes than a line may have.
pub const LINE_TOO_LONG: u8 = 16;

/// The line is no JSON value.
pub const BAD_JSON: u8 = 1;

/// The JSON value has none of the forms of a request.
pub const BAD_SHAPE: u8 = 2;

/// No peers were declared before.
pub const NO_PEERS: u8 = 4;

/// Peers were declared before.
pub const PEERS_TWICE: u8 = 5;

/// There are not 1 to 64 names of peers, one is no name, or two are equal.
pub const BAD_PEERS: u8 = 6;

/// The request's peer is not declared.
pub const UNKNOWN_PEER: u8 = 7;

/// A text is not in its grammar.
pub const BAD_CONCEPT: u8 = 3;

/// A concept has too many nodes or is too deep.
pub const CONCEPT_LIMIT: u8 = 11;

/// There would be more names and roles than there may be.
pub const SYMBOLS_FULL: u8 = 12;

/// A rule comes from the peer that keeps it.
pub const SAME_PEER: u8 = 8;

/// A rule comes from a peer that is not declared.
pub const UNKNOWN_SOURCE: u8 = 19;

/// A version has too many axioms.
pub const TOO_MANY_AXIOMS: u8 = 9;

/// A version has too many rules of one kind from one peer.
pub const TOO_MANY_RULES: u8 = 10;

/// There are as many accepted puts as there may be.
pub const VERSIONS_FULL: u8 = 13;

/// An ask's budget is out of its range.
pub const BAD_BUDGET: u8 = 14;

/// The closure of a peer that bears on an ask has too many concepts.
pub const CLOSURE_FULL: u8 = 15;

/// A pin names no version of some peer, or has not one number per peer.
pub const BAD_PIN: u8 = 18;

/// The name under which a code is printed. A number that is no code has the empty name.
pub fn name_of(code: u8) -> &'static str
    ensures { result.now ≡ error_name code }
{
    match code {
        LINE_TOO_LONG => "line_too_long",
        BAD_JSON => "bad_json",
        BAD_SHAPE => "bad_shape",
        NO_PEERS => "no_peers",
        PEERS_TWICE => "peers_twice",
        BAD_PEERS => "bad_peers",
        UNKNOWN_PEER => "unknown_peer",
        BAD_CONCEPT => "bad_concept",
        CONCEPT_LIMIT => "concept_limit",
        SYMBOLS_FULL => "symbols_full",
        SAME_PEER => "same_peer",
        UNKNOWN_SOURCE => "unknown_source",
        TOO_MANY_AXIOMS => "too_many_axioms",
        TOO_MANY_RULES => "too_many_rules",
        VERSIONS_FULL => "versions_full",
        BAD_BUDGET => "bad_budget",
        CLOSURE_FULL => "closure_full",
        BAD_PIN => "bad_pin",
        _ => "",
    }
}
