// Parts of a request, written after what is there.
ghost use Rattle.std.specs.Prelude.{◌≡◌, ◌++◌, ◌∷◌, ◌+◌, ◌-◌, ◌<◌, ◌≤◌, [], OnOk, codes, map};
ghost use Rattle.std.specs.List.{range_with_len};
ghost use Rattle.dd_gen.specs.Written.{comma_after, either, implies, numbered, quoted, with_commas};
ghost use Rattle.dd_gen.specs.Made.{axioms_of, chain, fork, in_a, in_c, into_of, peer_name, rule};

use crate::NoMemory;
use std::alloc::Global;

pub fn push(out: &mut Vec<u8>, text: &[u8]) -> Result<(), NoMemory>
    ensures { OnOk result (out.new.items ≡ out.old.items ++ text.now) }
{
    out.extend_from_slice(text)
}

pub fn push_numbered(alloc: Global, out: &mut Vec<u8>, word: &[u8], n: u32) -> Result<(), NoMemory>
    ensures { OnOk result (out.new.items ≡ out.old.items ++ numbered word.now n) }
{
    let number = n.to_string(alloc)?;
    push(out, word)?;
    push(out, number.as_bytes())
}

// A comma, before all but the first.
fn push_comma(out: &mut Vec<u8>, n: u32) -> Result<(), NoMemory>
    ensures { OnOk result (out.new.items ≡ out.old.items ++ comma_after n) }
{
    if n == 0 {
        return Ok(());
    }
    push(out, b",")
}

// The axiom that one concept of this letter is under the next.
fn push_step(alloc: Global, out: &mut Vec<u8>, letter: &[u8], t: u32) -> Result<(), NoMemory>
    requires { t < 1_000 }
    ensures { OnOk result (out.new.items ≡ out.old.items ++ quoted (implies (numbered letter.now t) (numbered letter.now (t + 1)))) }
{
    push(out, b"\"(implies ")?;
    push_numbered(alloc, out, letter, t)?;
    push(out, b" ")?;
    push_numbered(alloc, out, letter, t + 1)?;
    push(out, b")\"")
}

// The axioms from 0 on, `count` of them, with a comma between each two.
fn push_chain(alloc: Global, out: &mut Vec<u8>, letter: &[u8], count: u32) -> Result<(), NoMemory>
    requires { count ≤ 1_000 }
    ensures { OnOk result (out.new.items ≡ out.old.items ++ with_commas (map quoted (chain letter.now count))) }
{
    for t in 0..count {
        push_comma(out, t)?;
        push_step(alloc, out, letter, t)?;
    }
    Ok(())
}

/// The concept of what is in one of the last two.
pub fn push_either(alloc: Global, out: &mut Vec<u8>, size: u32) -> Result<(), NoMemory>
    ensures { OnOk result (out.new.items ≡ out.old.items ++ either (in_a size) (in_c size)) }
{
    push(out, b"(or ")?;
    push_numbered(alloc, out, b"A", size)?;
    push(out, b" ")?;
    push_numbered(alloc, out, b"C", size)?;
    push(out, b")")
}

fn push_fork(alloc: Global, out: &mut Vec<u8>, size: u32) -> Result<(), NoMemory>
    requires { 1 ≤ size }
    ensures { OnOk result (out.new.items ≡ out.old.items ++ quoted (fork size)) }
{
    push(out, b"\"(implies ")?;
    push_numbered(alloc, out, b"A", size - 1)?;
    push(out, b" ")?;
    push_either(alloc, out, size)?;
    push(out, b")\"")
}

fn push_head(alloc: Global, out: &mut Vec<u8>, size: u32) -> Result<(), NoMemory>
    requires { (1 ≤ size) × (size ≤ 1_000) }
    ensures { OnOk result (out.new.items ≡ out.old.items ++ with_commas (map quoted (chain (codes "A") (size - 1) ++ fork size ∷ []))) }
{
    push_chain(alloc, out, b"A", size - 1)?;
    push_comma(out, size - 1)?;
    push_fork(alloc, out, size)
}

/// The axioms of a peer.
pub fn push_axioms(
    alloc: Global,
    out: &mut Vec<u8>,
    is_head: bool,
    size: u32,
) -> Result<(), NoMemory>
    requires { (1 ≤ size) × (size ≤ 1_000) }
    ensures { OnOk result (out.new.items ≡ out.old.items ++ with_commas (map quoted (axioms_of is_head size))) }
{
    if is_head {
        return push_head(alloc, out, size);
    }
    push_chain(alloc, out, b"B", size)
}

/// The names of the peers.
pub fn push_names(alloc: Global, out: &mut Vec<u8>, peers: u32) -> Result<(), NoMemory>
    ensures { OnOk result (out.new.items ≡ out.old.items ++ with_commas (map (λ i. quoted (peer_name i)) (range_with_len 0 peers))) }
{
    for i in 0..peers {
        push_comma(out, i)?;
        push_name(alloc, out, i)?;
    }
    Ok(())
}

/// The name of a peer, as a string.
pub fn push_name(alloc: Global, out: &mut Vec<u8>, i: u32) -> Result<(), NoMemory>
    ensures { OnOk result (out.new.items ≡ out.old.items ++ quoted (peer_name i)) }
{
    push(out, b"\"")?;
    push_numbered(alloc, out, b"p", i)?;
    push(out, b"\"")
}

/// A rule between concepts of the same name.
pub fn push_rule(
    alloc: Global,
    out: &mut Vec<u8>,
    from: u32,
    letter: &[u8],
    n: u32,
) -> Result<(), NoMemory>
    ensures { OnOk result (out.new.items ≡ out.old.items ++ rule from (numbered letter.now n)) }
{
    push(out, b"{\"from\":")?;
    push_name(alloc, out, from)?;
    push(out, b",\"source\":\"")?;
    push_numbered(alloc, out, letter, n)?;
    push(out, b"\",\"target\":\"")?;
    push_numbered(alloc, out, letter, n)?;
    push(out, b"\"}")
}

// The rules for both of the last concepts.
fn push_both(alloc: Global, out: &mut Vec<u8>, size: u32, from: u32) -> Result<(), NoMemory>
    ensures { OnOk result (out.new.items ≡ out.old.items ++ with_commas (rule from (in_a size) ∷ rule from (in_c size) ∷ [])) }
{
    push_rule(alloc, out, from, b"A", size)?;
    push(out, b",")?;
    push_rule(alloc, out, from, b"C", size)
}

/// The into rules of a peer.
pub fn push_into(
    alloc: Global,
    out: &mut Vec<u8>,
    is_broken: bool,
    size: u32,
    from: u32,
) -> Result<(), NoMemory>
    ensures { OnOk result (out.new.items ≡ out.old.items ++ with_commas (into_of is_broken size from)) }
{
    if is_broken {
        return push_rule(alloc, out, from, b"A", size);
    }
    push_both(alloc, out, size, from)
}

/// A text as a string.
pub fn push_quoted(out: &mut Vec<u8>, text: &[u8]) -> Result<(), NoMemory>
    ensures { OnOk result (out.new.items ≡ out.old.items ++ quoted text.now) }
{
    push(out, b"\"")?;
    push(out, text)?;
    push(out, b"\"")
}
