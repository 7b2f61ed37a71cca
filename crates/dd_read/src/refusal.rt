ghost use Rattle.std.specs.Prelude.{◌≡◌, IfOk, OnErr, None, Some};
ghost use Rattle.dd_wire.specs.declared.reply.Reply.TheVariants as reply;
ghost use Rattle.dd_read.specs.Tests.{refused_version};
ghost use Rattle.dd_read.specs.Told.{RefusesLine, RefusesPut};

use dd_concept::NoMemory;
use dd_peer::PeerErr;
use dd_pin::PutErr;
use dd_wire::{
    Reply, SAME_PEER, TOO_MANY_AXIOMS, TOO_MANY_RULES, UNKNOWN_SOURCE, VERSIONS_FULL, WireErr,
};

/// The refusal with this code, which brings no number.
pub fn refused(id: u64, code: u8) -> Reply
    ensures { result ≡ reply.Refused id code None }
{
    Reply::Refused { id, code, n: None }
}

/// The reply to a line that is no request, for this reason.
pub fn refused_line(id: u64, e: WireErr) -> Result<Reply, NoMemory>
    ensures refuses { IfOk result (RefusesLine id e) }
    ensures memory { OnErr result (e ≡ WireErr.NoMemory) }
{
    match e {
        WireErr::Code { code, n } => Ok(Reply::Refused { id, code, n }),
        WireErr::NoMemory => Err(NoMemory),
    }
}

/// The reply to a put that is refused, for this reason.
pub fn refused_put(id: u64, e: PutErr) -> Result<Reply, NoMemory>
    ensures refuses { IfOk result (RefusesPut id e) }
    ensures memory { OnErr result (e ≡ PutErr.NoMemory) }
{
    match e {
        PutErr::Peer(e) => Ok(refused_version(id, e)),
        PutErr::VersionsFull => Ok(refused(id, VERSIONS_FULL)),
        PutErr::NoMemory => Err(NoMemory),
    }
}

/// The reply to a put whose version its peer may not have.
fn refused_version(id: u64, e: PeerErr) -> Reply
    ensures { result ≡ reply.Refused id (refused_version e).code (refused_version e).n }
{
    match e {
        PeerErr::SamePeer { rule } => refused_at(id, SAME_PEER, rule),
        PeerErr::UnknownPeer { rule } => refused_at(id, UNKNOWN_SOURCE, rule),
        PeerErr::TooManyAxioms { count } => refused_at(id, TOO_MANY_AXIOMS, count),
        PeerErr::TooManyRules { count, .. } => refused_at(id, TOO_MANY_RULES, count),
    }
}

/// The refusal with this code and this number.
pub fn refused_at(id: u64, code: u8, n: u32) -> Reply
    ensures { result ≡ reply.Refused id code (Some n) }
{
    Reply::Refused {
        id,
        code,
        n: Some(n as u64),
    }
}
