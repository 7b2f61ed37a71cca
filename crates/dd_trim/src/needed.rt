// Which lines the last one needs.
ghost use Rattle.std.specs.Prelude.{◌≡◌, ◌<◌, ◌≤◌, ◌∷◌, [], IfOk, length};
ghost use Rattle.dd_trim.specs.Cited.{cited_by};
ghost use Rattle.dd_trim.specs.Marked.{AreMarked, Marks, Visits};

use crate::NoMemory;
use dd_task::{Line, Why};
use std::alloc::Global;

/// A mark for the last line and for each line that a line with a mark cites, as far as it stands before that.
pub(crate) fn needed_of(alloc: Global, lines: &[Line]) -> Result<Vec<bool>, NoMemory>
    ensures { IfOk result (λ marks. AreMarked lines.now 0 marks.items) }
{
    let mut marks = vec![in alloc; false; lines.len()]?;
    if let Some(last) = lines.len().checked_sub(1) {
        marks[last] = true;
    }
    mark_all(lines, &mut marks);
    Ok(marks)
}

/// From the last line to the first.
fn mark_all(lines: &[Line], marks: &mut [bool])
    requires { AreMarked lines.now (length lines.now) marks.old }
    ensures { AreMarked lines.now 0 marks.new }
{
    let mut k = lines.len();
    while k > 0 {
        k -= 1;
        visit(&lines[k].why, k, marks);
    }
}

fn visit(why: &Why, k: usize, marks: &mut [bool])
    requires { k < length marks.old }
    ensures { Visits k (cited_by why.now) marks.old marks.new }
{
    if marks[k] {
        mark_cited(why, k, marks);
    }
}

fn mark_cited(why: &Why, k: usize, marks: &mut [bool])
    requires { k ≤ length marks.old }
    ensures { Marks k (cited_by why.now) marks.old marks.new }
{
    match why {
        Why::Bottom => mark_each(&[], k, marks),
        Why::Clash { .. } => mark_each(&[], k, marks),
        Why::And { cite, .. } => mark_each(&[*cite], k, marks),
        Why::Or { left, right, .. } => mark_each(&[*left, *right], k, marks),
        Why::Axiom { left, right, .. } => mark_each(&[*left, *right], k, marks),
        Why::Cut { yes, no, .. } => mark_each(&[*yes, *no], k, marks),
        Why::Successor { cite, .. } => mark_each(&[*cite], k, marks),
        Why::Bridge { cite, each, .. } => mark_bridge(*cite, each.as_slice(), k, marks),
    }
}

fn mark_bridge(cite: u32, each: &[u32], k: usize, marks: &mut [bool])
    requires { k ≤ length marks.old }
    ensures { Marks k (cite ∷ each.now) marks.old marks.new }
{
    mark(cite, k, marks);
    mark_each(each, k, marks);
}

fn mark_each(cites: &[u32], k: usize, marks: &mut [bool])
    requires { k ≤ length marks.old }
    ensures { Marks k cites.now marks.old marks.new }
{
    for cite in cites {
        mark(*cite, k, marks);
    }
}

fn mark(cite: u32, k: usize, marks: &mut [bool])
    requires { k ≤ length marks.old }
    ensures { Marks k (cite ∷ []) marks.old marks.new }
{
    let cite = cite as usize;
    if cite < k {
        marks[cite] = true;
    }
}
