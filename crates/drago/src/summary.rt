// The line that sums a session up.
ghost use Rattle.std.specs.Prelude.{◌≡◌, ◌++◌, ◌≤◌, ℕ, IfOk, OnOk, length};
ghost use Rattle.std.specs.Fmt.{decimal};
ghost use Rattle.std.specs.List.{count_by};
ghost use Rattle.drago.specs.Summary.{is_memory, is_no, is_of_ask, is_refused, is_spent, is_yes, kind_of, summary_text};

use std::alloc::{AllocError, Global};

/// What a reply tells.
#[derive(Clone, Copy, Drop)]
pub enum Kind {
    /// An ask was answered with yes, with no, with a spent run or verdicts, or with want of memory.
    Yes,
    No,
    Spent,
    Memory,
    /// A request was refused.
    Refused,
    /// Any other request was answered.
    Other,
}

/// What a reply tells, by its line with its line feed.
pub fn kind_of(line: &[u8]) -> Kind
    ensures { result ≡ kind_of line.now }
{
    if line.starts_with(b"{\"code\":") {
        return Kind::Refused;
    }
    if line.ends_with(b"\"verdict\":\"yes\"}\n") {
        return Kind::Yes;
    }
    if line.ends_with(b"\"verdict\":\"no\"}\n") {
        return Kind::No;
    }
    if line.ends_with(b"\"verdict\":\"spent\"}\n") {
        return Kind::Spent;
    }
    if line.ends_with(b"\"verdict\":\"memory\"}\n") {
        return Kind::Memory;
    }
    Kind::Other
}

/// The line, without a line feed.
pub fn summary(alloc: Global, kinds: &[Kind]) -> Result<Vec<u8>, AllocError>
    ensures { IfOk result (λ text. text.items ≡ summary_text kinds.now) }
{
    let mut text = Vec::new(alloc);
    push_count(alloc, &mut text, b"{\"asks\":", asks(kinds))?;
    push_count(alloc, &mut text, b",\"errors\":", refused(kinds))?;
    push_count(alloc, &mut text, b",\"memory\":", memory(kinds))?;
    push_count(alloc, &mut text, b",\"no\":", noes(kinds))?;
    push_count(alloc, &mut text, b",\"spent\":", spent(kinds))?;
    push_count(alloc, &mut text, b",\"yes\":", yeses(kinds))?;
    text.extend_from_slice(b"}")?;
    Ok(text)
}

/// The name of a count and the count.
fn push_count(
    alloc: Global,
    text: &mut Vec<u8>,
    name: &[u8],
    count: usize,
) -> Result<(), AllocError>
    ensures { OnOk result (text.new.items ≡ text.old.items ++ name.now ++ decimal count) }
{
    let number = count.to_string(alloc)?;
    text.extend_from_slice(name)?;
    text.extend_from_slice(number.as_bytes())
}

fn asks(kinds: &[Kind]) -> usize
    ensures { result ≡ count_by is_of_ask kinds.now }
{
    kinds
        .iter()
        .filter(|kind| !matches!(kind, Kind::Refused | Kind::Other))
        .count()
}

fn refused(kinds: &[Kind]) -> usize
    ensures { result ≡ count_by is_refused kinds.now }
{
    kinds
        .iter()
        .filter(|kind| matches!(kind, Kind::Refused))
        .count()
}

fn memory(kinds: &[Kind]) -> usize
    ensures { result ≡ count_by is_memory kinds.now }
{
    kinds
        .iter()
        .filter(|kind| matches!(kind, Kind::Memory))
        .count()
}

fn noes(kinds: &[Kind]) -> usize
    ensures { result ≡ count_by is_no kinds.now }
{
    kinds.iter().filter(|kind| matches!(kind, Kind::No)).count()
}

fn spent(kinds: &[Kind]) -> usize
    ensures { result ≡ count_by is_spent kinds.now }
{
    kinds
        .iter()
        .filter(|kind| matches!(kind, Kind::Spent))
        .count()
}

fn yeses(kinds: &[Kind]) -> usize
    ensures { result ≡ count_by is_yes kinds.now }
{
    kinds
        .iter()
        .filter(|kind| matches!(kind, Kind::Yes))
        .count()
}
