//! Labels of lines against sets of numbers.
ghost use Rattle.std.specs.Prelude.{◌≡◌, ◌<◌, ◌↔◌, All, IfOk, IfSome, IsTrue, OnOk, length};
ghost use Rattle.dd_set.specs.Words.{has};
ghost use Rattle.dd_close.specs.Drafts.{IsLine};
ghost use Rattle.dd_close.specs.Parts.{AddsPart, ArePartsOf};

use crate::draft::Book;
use dd_set::{Bits, NoMemory, are_within};
use std::alloc::Global;

/// Whether the line's label is within the set.
pub(crate) fn is_line_within(book: &Book, line: u32, set: &Bits) -> bool
    requires there { line < length book.now.table.list }
    requires width { set.now.width ≡ book.now.table.width }
    ensures { IsTrue result ↔ IsLine book.now (has set.now.words) line }
{
    let label = book.table.label(line);
    are_within(label.words(), set.words())
}

/// The first of the lines whose label is within the set.
pub(crate) fn line_within(book: &Book, lines: &[u32], set: &Bits) -> Option<u32>
    requires there { All (λ m. m < length book.now.table.list) lines.now }
    requires width { set.now.width ≡ book.now.table.width }
    ensures { IfSome result (IsLine book.now (has set.now.words)) }
{
    for line in lines {
        if is_line_within(book, *line, set) {
            return Some(*line);
        }
    }
    None
}

/// Adds what the line's label has of the set.
pub(crate) fn add_part(
    alloc: Global,
    book: &Book,
    line: u32,
    set: &Bits,
    parts: &mut Bits,
) -> Result<(), NoMemory>
    requires there { line < length book.now.table.list }
    requires width { set.now.width ≡ book.now.table.width }
    requires parts_width { parts.old.width ≡ book.now.table.width }
    ensures width { parts.new.width ≡ parts.old.width }
    ensures adds { OnOk result (AddsPart book.now.table.list line (has set.now.words) (has parts.old.words) (has parts.new.words)) }
{
    let mut part = book.table.label(line).to_bits(alloc)?;
    part.keep_all(set);
    parts.insert_all(part.words());
    Ok(())
}

/// What the lines' labels have of the set.
pub(crate) fn parts_of(
    alloc: Global,
    book: &Book,
    lines: &[u32],
    set: &Bits,
) -> Result<Bits, NoMemory>
    requires there { All (λ m. m < length book.now.table.list) lines.now }
    requires width { set.now.width ≡ book.now.table.width }
    ensures width { IfOk result (λ b. b.width ≡ set.now.width) }
    ensures parts { IfOk result (λ b. ArePartsOf book.now.table.list lines.now (has set.now.words) (has b.words)) }
{
    let mut parts = Bits::new(alloc, set.width())?;
    for line in lines {
        add_part(alloc, book, *line, set, &mut parts)?;
    }
    Ok(parts)
}
