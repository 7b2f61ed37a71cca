// All requests.
ghost use Rattle.std.specs.Prelude.{◌≡◌, ◌≤◌, ◌++◌, ◌∷◌, [], IfOk, OnOk, map};
ghost use Rattle.std.specs.List.{range_with_len};
ghost use Rattle.dd_gen.specs.Made.{ask_line, backward_line, in_a, in_c, lines_of_make, onward_line, peers_line, put_line};
ghost use Rattle.dd_gen.specs.Written.{either, numbered};

use crate::NoMemory;
use crate::parts::{push_either, push_numbered};
use crate::requests::{ask_request, peers_request, put_request};
use std::alloc::Global;

/// The lines, without their line feeds: a `peers`, a put for each peer, and two asks at each. With `d` the number of steps from
/// peer `seed % peers` on to peer `(seed / peers) % peers`, or `peers` where they are the same one, `d` of the asks hold.
pub fn make(alloc: Global, seed: u32, peers: u32, size: u32) -> Result<Vec<Vec<u8>>, NoMemory>
    requires peers { (2 ≤ peers) × (peers ≤ 64) }
    requires size { (1 ≤ size) × (size ≤ 1_000) }
    ensures { IfOk result (λ lines. map (λ line. line.items) lines.items ≡ lines_of_make seed peers size) }
{
    let mut lines = with_peers(alloc, peers)?;
    push_puts(alloc, &mut lines, seed, peers, size)?;
    push_onward(alloc, &mut lines, peers, size)?;
    push_backward(alloc, &mut lines, peers, size)?;
    Ok(lines)
}

fn with_peers(alloc: Global, peers: u32) -> Result<Vec<Vec<u8>>, NoMemory>
    ensures { IfOk result (λ lines. map (λ line. line.items) lines.items ≡ peers_line peers ∷ []) }
{
    let mut lines = Vec::new(alloc);
    lines.push(peers_request(alloc, peers)?)?;
    Ok(lines)
}

fn push_puts(
    alloc: Global,
    lines: &mut Vec<Vec<u8>>,
    seed: u32,
    peers: u32,
    size: u32,
) -> Result<(), NoMemory>
    requires peers { (2 ≤ peers) × (peers ≤ 64) }
    requires size { (1 ≤ size) × (size ≤ 1_000) }
    ensures { OnOk result (map (λ line. line.items) lines.new.items ≡ map (λ line. line.items) lines.old.items ++ map (put_line seed peers size) (range_with_len 0 peers)) }
{
    for i in 0..peers {
        lines.push(put_of(alloc, seed, peers, size, i)?)?;
    }
    Ok(())
}

fn put_of(alloc: Global, seed: u32, peers: u32, size: u32, i: u32) -> Result<Vec<u8>, NoMemory>
    requires peers { (2 ≤ peers) × (peers ≤ 64) }
    requires size { (1 ≤ size) × (size ≤ 1_000) }
    requires i { i ≤ 64 }
    ensures { IfOk result (λ line. line.items ≡ put_line seed peers size i) }
{
    let is_head = i == seed % peers;
    let is_broken = i == (seed / peers) % peers;
    put_request(alloc, is_head, is_broken, size, (i + peers - 1) % peers, i)
}

fn push_asks(
    alloc: Global,
    lines: &mut Vec<Vec<u8>>,
    left: &[u8],
    right: &[u8],
    peers: u32,
) -> Result<(), NoMemory>
    ensures { OnOk result (map (λ line. line.items) lines.new.items ≡ map (λ line. line.items) lines.old.items ++ map (ask_line left.now right.now) (range_with_len 0 peers)) }
{
    for i in 0..peers {
        lines.push(ask_request(alloc, left, right, i)?)?;
    }
    Ok(())
}

fn push_onward(
    alloc: Global,
    lines: &mut Vec<Vec<u8>>,
    peers: u32,
    size: u32,
) -> Result<(), NoMemory>
    ensures { OnOk result (map (λ line. line.items) lines.new.items ≡ map (λ line. line.items) lines.old.items ++ map (onward_line size) (range_with_len 0 peers)) }
{
    let first = numbered_text(alloc, b"A", 0)?;
    let last = either_of_last(alloc, size)?;
    push_asks(alloc, lines, first.as_slice(), last.as_slice(), peers)
}

fn push_backward(
    alloc: Global,
    lines: &mut Vec<Vec<u8>>,
    peers: u32,
    size: u32,
) -> Result<(), NoMemory>
    ensures { OnOk result (map (λ line. line.items) lines.new.items ≡ map (λ line. line.items) lines.old.items ++ map (backward_line size) (range_with_len 0 peers)) }
{
    let last = numbered_text(alloc, b"A", size)?;
    let first = numbered_text(alloc, b"A", 0)?;
    push_asks(alloc, lines, last.as_slice(), first.as_slice(), peers)
}

fn numbered_text(alloc: Global, word: &[u8], n: u32) -> Result<Vec<u8>, NoMemory>
    ensures { IfOk result (λ text. text.items ≡ numbered word.now n) }
{
    let mut text = Vec::new(alloc);
    push_numbered(alloc, &mut text, word, n)?;
    Ok(text)
}

fn either_of_last(alloc: Global, size: u32) -> Result<Vec<u8>, NoMemory>
    ensures { IfOk result (λ text. text.items ≡ either (in_a size) (in_c size)) }
{
    let mut text = Vec::new(alloc);
    push_either(alloc, &mut text, size)?;
    Ok(text)
}
