use dd_concept::Items;
use dd_json::Text;
use dd_peer::{PeerVersion, Pin, Query};
use serde_json::Value;

/// A request, with numbers for its peers, names and roles.
#[derive(Drop)]
pub enum Request {
    Peers(Items<Text>),
    Put {
        peer: u32,
        version: PeerVersion,
    },
    Ask {
        query: Query,
        expansions: Option<u64>,
        verdicts: Option<u64>,
    },
    Check {
        query: Query,
        pin: Pin,
        cert: Value,
    },
    Versions,
}

/// Why a line is no request.
#[derive(Debug, Drop)]
pub enum WireErr {
    /// The code of the first test that fails, with a number where the code has one.
    Code { code: u8, n: Option<u64> },
    /// Memory ran out, whatever the line is.
    NoMemory,
}
