ghost use Rattle.std.specs.Prelude.{◌≡◌, IfOk, OnErr, Result};
ghost use Rattle.serde_json.specs.View.{view};
ghost use Rattle.dd_peer.specs.Versions.{AreNumbered};
ghost use Rattle.dd_text.specs.Symbols.{Grows};
ghost use Rattle.dd_cert.specs.Certificates.{Tells, Certified, Tried};
ghost use Rattle.dd_world.specs.Faults.{judged_by, fault_of};
ghost use Rattle.dd_read.specs.Judged.{JudgesCert, JudgesLines, JudgesValue, JudgesWorld, fault_replied};
ghost use Rattle.dd_read.specs.Told.{JudgedBy, LinesBy, Unreads};

use dd_cert::{Cert, CertErr, read_cert};
use dd_check::{LineFault, check_lines};
use dd_concept::NoMemory;
use dd_peer::{Pinned, Query};
use dd_task::Line;
use dd_text::Symbols;
use dd_wire::{BadWorld, Reply, SYMBOLS_FULL, Unread};
use dd_world::{World, WorldFault, judge_world};
use serde_json::Value;
use std::alloc::Global;

/// The reply to a check: whether the lines that its certificate is derive
/// the query under these versions, or the world that it is refutes it. The symbols
/// of the certificate are added.
pub fn judge(
    alloc: Global,
    symbols: &mut Symbols,
    id: u64,
    pinned: &Pinned,
    query: &Query,
    cert: &Value,
) -> Result<Reply, NoMemory>
    requires numbered { AreNumbered pinned.now }
    ensures judges { IfOk result (JudgesValue id (record { pinned = pinned.now; query = query.now }) symbols.old (view cert.now)) }
    ensures grows { Grows symbols.old symbols.new }
{
    let _mark = symbols.mark();
    match read_cert(alloc, symbols, cert) {
        Ok(cert) => judge_cert(alloc, id, pinned, query, cert),
        Err(e) => unread(id, e),
    }
}

/// The reply where a certificate was read.
fn judge_cert(
    alloc: Global,
    id: u64,
    pinned: &Pinned,
    query: &Query,
    cert: Cert,
) -> Result<Reply, NoMemory>
    requires numbered { AreNumbered pinned.now }
    ensures { IfOk result (JudgesCert id (record { pinned = pinned.now; query = query.now }) cert) }
{
    match cert {
        Cert::Yes(lines) => judge_lines(id, pinned, query, lines.as_slice()),
        Cert::No(world) => judge_no(alloc, id, pinned, query, &world),
    }
}

/// The reply to lines. There are fewer than 2^32, or there was no memory for them.
fn judge_lines(id: u64, pinned: &Pinned, query: &Query, lines: &[Line]) -> Result<Reply, NoMemory>
    ensures { IfOk result (JudgesLines id (record { pinned = pinned.now; query = query.now }) lines.now) }
{
    if lines.len() > u32::MAX as usize {
        return Err(NoMemory);
    }
    let verdict = check_lines(pinned, query, lines);
    Ok(judged_lines(id, verdict))
}

/// The reply where lines were judged.
fn judged_lines(id: u64, verdict: Result<(), LineFault>) -> Reply
    ensures { LinesBy id verdict result }
{
    match verdict {
        Ok(()) => Reply::Valid { id },
        Err(fault) => Reply::InvalidLines { id, at: fault.at },
    }
}

/// The reply to a world.
fn judge_no(
    alloc: Global,
    id: u64,
    pinned: &Pinned,
    query: &Query,
    world: &World,
) -> Result<Reply, NoMemory>
    requires numbered { AreNumbered pinned.now }
    ensures { IfOk result (JudgesWorld id (record { pinned = pinned.now; query = query.now }) world.now) }
{
    let verdict = judge_world(alloc, pinned, query, world)?;
    Ok(judged(id, verdict))
}

/// The reply where a world was judged.
fn judged(id: u64, verdict: Result<(), WorldFault>) -> Reply
    ensures { JudgedBy id verdict result }
{
    match verdict {
        Ok(()) => Reply::Valid { id },
        Err(fault) => Reply::InvalidWorld {
            id,
            fault: told(fault),
        },
    }
}

fn told(fault: WorldFault) -> BadWorld
    ensures { result ≡ fault_replied fault }
{
    match fault {
        WorldFault::Shape => BadWorld::Shape,
        WorldFault::Axiom { peer, index } => BadWorld::Axiom { index, peer },
        WorldFault::Into { peer, index } => BadWorld::Into { index, peer },
        WorldFault::Onto { peer, index } => BadWorld::Onto { index, peer },
        WorldFault::NotCounter => BadWorld::NotCounter,
    }
}

/// The reply where a certificate cannot be read.
fn unread(id: u64, e: CertErr) -> Result<Reply, NoMemory>
    ensures unreads { IfOk result (λ reply. (found : Tried Certified) → Tells e found → Unreads id found reply) }
    ensures memory { OnErr result (e ≡ CertErr.NoMemory) }
{
    match e {
        CertErr::Shape { field } => Ok(Reply::Unreadable {
            id,
            what: Unread::Field(field),
        }),
        CertErr::Index { place, value } => Ok(Reply::Unreadable {
            id,
            what: Unread::Place { place, value },
        }),
        CertErr::Text { index } => Ok(Reply::Unreadable {
            id,
            what: Unread::Text(index),
        }),
        CertErr::SymbolsFull => Ok(Reply::Refused {
            id,
            code: SYMBOLS_FULL,
            n: None,
        }),
        CertErr::NoMemory => Err(NoMemory),
    }
}
