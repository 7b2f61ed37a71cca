// Which peers an answer about a peer can depend on.
ghost use Rattle.std.specs.Prelude.{◌≡◌, ◌<◌, [], ◌∷◌, ◌++◌, if◌then◌else◌, false, IfOk, OnOk, All, length, replicate, slice_get, Some};
ghost use Rattle.std.specs.List.{filter, range_with_len};
ghost use Rattle.dd_peer.specs.Marks.{AreMarked, IsWalk, MarksRelevant, froms_of, is_marked};
ghost use Rattle.dd_peer.specs.Relevant.{AreDeclared, AreRelevant, ComeFromBelow};
ghost use Rattle.dd_peer.specs.Rules.{rules_of};
ghost use Rattle.dd_peer.specs.declared.version.Rule.{Rule as RuleView};

use crate::version::{PeerVersion, Pinned, Rule};
use dd_concept::NoMemory;
use std::alloc::Global;

/// The peers that are relevant to the peer, rising: itself, and each from which a chain of rules leads to it.
pub fn relevant_of(alloc: Global, p: &Pinned, peer: u32) -> Result<Vec<u32>, NoMemory>
    requires declared { peer < length p.now.peers }
    requires rules { AreDeclared p.now }
    ensures { IfOk result (λ list. AreRelevant p.now peer list.items) }
{
    let marks = marks_of(alloc, p, peer)?;
    let list = listed(alloc, marks.as_slice())?;
    Ok(list)
}

// The peers with a mark.
fn listed(alloc: Global, marks: &[bool]) -> Result<Vec<u32>, NoMemory>
    ensures { IfOk result (λ list. list.items ≡ filter (is_marked marks.now) (range_with_len 0 (length marks.now))) }
{
    let mut list = Vec::new(alloc);
    for k in 0..marks.len() {
        let Ok(peer) = u32::try_from(k) else {
            return Err(NoMemory);
        };
        push_marked(&mut list, peer, marks[k])?;
    }
    Ok(list)
}

fn push_marked(list: &mut Vec<u32>, peer: u32, has_mark: bool) -> Result<(), NoMemory>
    ensures { OnOk result (list.new.items ≡ list.old.items ++ (if has_mark then peer ∷ [] else [])) }
{
    if has_mark {
        list.push(peer)?;
    }
    Ok(())
}

fn marks_of(alloc: Global, p: &Pinned, peer: u32) -> Result<Vec<bool>, NoMemory>
    requires declared { peer < length p.now.peers }
    requires rules { AreDeclared p.now }
    ensures { IfOk result (λ marks. MarksRelevant p.now peer marks.items) }
{
    let mut marks = vec![in alloc; false; p.peers.as_slice().len()]?;
    walk(alloc, p, peer, &mut marks)?;
    Ok(marks)
}

// Marks the relevant peers, where none is marked.
fn walk(alloc: Global, p: &Pinned, peer: u32, marks: &mut [bool]) -> Result<(), NoMemory>
    requires declared { peer < length p.now.peers }
    requires rules { AreDeclared p.now }
    requires none { marks.old ≡ replicate (length p.now.peers) false }
    ensures { OnOk result (MarksRelevant p.now peer marks.new) }
{
    let mut todo = Vec::new(alloc);
    mark(marks, &mut todo, peer)?;
    while let Some(next) = todo.pop() {
        visit(version_at(p, next), marks, &mut todo)?;
    }
    Ok(())
}

fn version_at(p: &Pinned, peer: u32) -> &PeerVersion
    requires { peer < length p.now.peers }
    ensures { slice_get p.now.peers peer ≡ Some result.now }
{
    p.peers.as_slice()[peer as usize].get()
}

// Marks the peers that rules of the version come from.
fn visit(v: &PeerVersion, marks: &mut [bool], todo: &mut Vec<u32>) -> Result<(), NoMemory>
    requires { ComeFromBelow (length marks.old) v.now }
    ensures { OnOk result (AreMarked (froms_of (rules_of v.now)) marks.old marks.new todo.old.items todo.new.items) }
{
    mark_each(v.into.as_slice(), marks, todo)?;
    mark_each(v.onto.as_slice(), marks, todo)
}

fn mark_each(rules: &[Rule], marks: &mut [bool], todo: &mut Vec<u32>) -> Result<(), NoMemory>
    requires { All (λ (r : RuleView). r.from < length marks.old) rules.now }
    ensures { OnOk result (AreMarked (froms_of rules.now) marks.old marks.new todo.old.items todo.new.items) }
{
    for rule in rules {
        mark(marks, todo, rule.from)?;
    }
    Ok(())
}

// Marks a peer, which is then to be visited, unless it has its mark.
fn mark(marks: &mut [bool], todo: &mut Vec<u32>, peer: u32) -> Result<(), NoMemory>
    requires { peer < length marks.old }
    ensures { OnOk result (AreMarked (peer ∷ []) marks.old marks.new todo.old.items todo.new.items) }
{
    if marks[peer as usize] {
        return Ok(());
    }
    todo.push(peer)?;
    marks[peer as usize] = true;
    Ok(())
}
