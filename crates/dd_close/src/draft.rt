//! Lines in numbers: labels with reasons, each label once.
ghost use Rattle.std.specs.Prelude.{◌≡◌, [], IfOk, length};
ghost use Rattle.dd_graph.specs.View.{rules_at, view_of};
ghost use Rattle.dd_set.specs.Words.{has};
ghost use Rattle.dd_close.specs.Drafts.{IsBook, IsReason, Makes};

use bumpalo::Bump;
use dd_concept::Items;
use dd_graph::Graph;
use dd_rules::{Clash, Step};
use dd_set::{Bits, NoMemory};
use dd_table::Table;
use std::alloc::Global;

/// Why no element has a label, by the numbers of earlier lines.
#[derive(Drop)]
pub(crate) enum Reason {
    /// The label has this clash.
    Clash(Clash),
    /// The label has the conjunction `at`; the cited line is within the label with its parts.
    And { at: u32, cite: u32 },
    /// Each cited line is within the label with the step's addition of the same place.
    Choice { step: Step, cites: Items<u32> },
    /// The label has the existential restriction `at`; the cited line is within what that asks of an element along its role.
    Successor { at: u32, cite: u32 },
}

/// The lines so far: a line's number is that of its label in the table.
#[derive(Drop)]
pub(crate) struct Book<'a> {
    pub(crate) table: Table<'a>,
    pub(crate) reasons: Vec<Reason>,
}

/// No lines yet.
pub(crate) fn empty_book<'a>(
    alloc: Global,
    arena: &'a Bump,
    g: &Graph,
) -> Result<Book<'a>, NoMemory>
    ensures book { IfOk result (IsBook (view_of g.now)) }
    ensures empty { IfOk result (λ b. b.table.list ≡ []) }
{
    let table = Table::new(alloc, arena, g.compiled().count())?;
    Ok(Book {
        table,
        reasons: Vec::new(alloc),
    })
}

/// The number of the line with this label, which is added where there is none.
pub(crate) fn note(
    alloc: Global,
    _g: &Graph,
    book: &mut Book,
    label: &Bits,
    reason: Reason,
) -> Result<u32, NoMemory>
    requires book { IsBook (view_of _g.now) book.old }
    requires width { label.now.width ≡ length (view_of _g.now).closure.concepts }
    requires reason { IsReason (rules_at (view_of _g.now)) book.old.table.list (length book.old.table.list) (has label.now.words) reason }
    ensures { IfOk result (Makes (view_of _g.now) book.old book.new (has label.now.words)) }
{
    let (at, fresh) = book.table.intern(alloc, label)?;
    if fresh {
        book.reasons.push(reason)?;
    }
    Ok(at)
}
