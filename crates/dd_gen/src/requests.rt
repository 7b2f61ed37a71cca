// One request.
ghost use Rattle.std.specs.Prelude.{◌≡◌, ◌+◌, ◌<◌, ◌≤◌, IfOk, codes};
ghost use Rattle.dd_gen.specs.Made.{ask_line, peers_line, put_text};

use crate::NoMemory;
use crate::parts::{push, push_axioms, push_into, push_name, push_names, push_quoted, push_rule};
use std::alloc::Global;

/// The request that declares the peers.
pub fn peers_request(alloc: Global, peers: u32) -> Result<Vec<u8>, NoMemory>
    ensures { IfOk result (λ line. line.items ≡ peers_line peers) }
{
    let mut line = Vec::new(alloc);
    push(&mut line, b"{\"names\":[")?;
    push_names(alloc, &mut line, peers)?;
    push(&mut line, b"],\"op\":\"peers\"}")?;
    Ok(line)
}

/// The request that puts what a peer says.
pub fn put_request(
    alloc: Global,
    is_head: bool,
    is_broken: bool,
    size: u32,
    from: u32,
    i: u32,
) -> Result<Vec<u8>, NoMemory>
    requires { (1 ≤ size) × (size ≤ 1_000) }
    ensures { IfOk result (λ line. line.items ≡ put_text is_head is_broken size from i) }
{
    let mut line = Vec::new(alloc);
    push(&mut line, b"{\"axioms\":[")?;
    push_axioms(alloc, &mut line, is_head, size)?;
    push(&mut line, b"],\"into\":[")?;
    push_into(alloc, &mut line, is_broken, size, from)?;
    push(&mut line, b"],\"onto\":[")?;
    push_rule(alloc, &mut line, from, b"A", 0)?;
    push(&mut line, b"],\"op\":\"put\",\"peer\":")?;
    push_name(alloc, &mut line, i)?;
    push(&mut line, b"}")?;
    Ok(line)
}

/// The request that asks at a peer whether `left` is under `right`.
pub fn ask_request(alloc: Global, left: &[u8], right: &[u8], i: u32) -> Result<Vec<u8>, NoMemory>
    ensures { IfOk result (λ line. line.items ≡ ask_line left.now right.now i) }
{
    let mut line = Vec::new(alloc);
    push(&mut line, b"{\"left\":")?;
    push_quoted(&mut line, left)?;
    push(&mut line, b",\"op\":\"ask\",\"peer\":")?;
    push_name(alloc, &mut line, i)?;
    push(&mut line, b",\"right\":")?;
    push_quoted(&mut line, right)?;
    push(&mut line, b"}")?;
    Ok(line)
}
