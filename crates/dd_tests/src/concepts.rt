ghost use Rattle.std.specs.Prelude.{⊤};

use crate::rows::{Failure, Row, check, check_one};
use dd_concept::{
    Axiom, Items, NoMemory, copy, copy_axiom, names_in, nnf, nnf_not, roles_in, same, same_axiom,
};
use dd_text::{REQUEST, Symbols, read_axiom};
use std::alloc::Global;

/// What is asked of the two sides of an axiom.
enum Asked {
    /// Whether they are the same.
    Same,
    /// Whether the right one is the normal form of the left one.
    Nnf,
    /// Whether the right one is the normal form of the left one's complement.
    NnfNot,
    /// Whether a copy of the left one is the same as that.
    LeftCopied,
    /// Whether a copy of the axiom is the same as that.
    Copied,
    /// Whether the names of the left one are those with the numbers 0, 1 and 0.
    Names,
    /// Whether the roles of the left one are those with the numbers 0 and 1.
    Roles,
}

/// An axiom, and the answer to what is asked of its sides.
struct Sides {
    text: &'static [u8],
    asked: Asked,
    answer: bool,
}

impl Row for Sides {
    ghost answers = { λ row yes. ⊤ };

    fn is_right(&self, alloc: Global) -> Result<bool, NoMemory> {
        let mut symbols = Symbols::new(alloc)?;
        let is_right = reads(alloc, &mut symbols, self);
        drop(symbols);
        is_right
    }
}

fn reads(alloc: Global, symbols: &mut Symbols, sides: &Sides) -> Result<bool, NoMemory> {
    match read_axiom(alloc, symbols, REQUEST, sides.text) {
        Ok(axiom) => {
            let answer = answer(alloc, &axiom, &sides.asked);
            drop(axiom);
            Ok(answer? == sides.answer)
        }
        Err(_) => Ok(false),
    }
}

fn answer(alloc: Global, axiom: &Axiom, asked: &Asked) -> Result<bool, NoMemory> {
    match asked {
        Asked::Same => Ok(same(&axiom.left, &axiom.right)),
        Asked::Nnf => has_nnf(alloc, axiom),
        Asked::NnfNot => has_nnf_not(alloc, axiom),
        Asked::LeftCopied => is_left_copied(alloc, axiom),
        Asked::Copied => is_copied(alloc, axiom),
        Asked::Names => has_three_names(alloc, axiom),
        Asked::Roles => has_two_roles(alloc, axiom),
    }
}

fn has_nnf(alloc: Global, axiom: &Axiom) -> Result<bool, NoMemory> {
    let found = nnf(alloc, &axiom.left)?;
    let is_same = same(&found, &axiom.right);
    drop(found);
    Ok(is_same)
}

fn has_nnf_not(alloc: Global, axiom: &Axiom) -> Result<bool, NoMemory> {
    let found = nnf_not(alloc, &axiom.left)?;
    let is_same = same(&found, &axiom.right);
    drop(found);
    Ok(is_same)
}

fn is_left_copied(alloc: Global, axiom: &Axiom) -> Result<bool, NoMemory> {
    let again = copy(alloc, &axiom.left)?;
    let is_same = same(&again, &axiom.left);
    drop(again);
    Ok(is_same)
}

fn is_copied(alloc: Global, axiom: &Axiom) -> Result<bool, NoMemory> {
    let again = copy_axiom(alloc, axiom)?;
    let is_same = same_axiom(&again, axiom);
    drop(again);
    Ok(is_same)
}

fn has_three_names(alloc: Global, axiom: &Axiom) -> Result<bool, NoMemory> {
    let names = names_in(alloc, &axiom.left)?;
    let are_three = names.as_slice() == [0, 1, 0].as_slice();
    drop(names);
    Ok(are_three)
}

fn has_two_roles(alloc: Global, axiom: &Axiom) -> Result<bool, NoMemory> {
    let roles = roles_in(alloc, &axiom.left)?;
    let are_two = roles.as_slice() == [0, 1].as_slice();
    drop(roles);
    Ok(are_two)
}

/// Sides that differ in a role alone.
const TWO_ROLES: &[u8] =
    b"(implies (and A (some s (not (or B top)))) (and A (some r (not (or B top)))))";

/// A name that stands twice on the left side, and two roles.
const NAME_TWICE: &[u8] = b"(implies (and B (some s (or (not A) (all r B)))) (some r C))";

const SIDES: &[Sides] = &[
    Sides {
        text: b"(implies (and A (some r (not (or B top)))) (and A (some r (and (not B) bottom))))",
        asked: Asked::Nnf,
        answer: true,
    },
    Sides {
        text: b"(implies (and A (some r (not (or B top)))) (or (not A) (all r (or B top))))",
        asked: Asked::NnfNot,
        answer: true,
    },
    Sides {
        text: TWO_ROLES,
        asked: Asked::Same,
        answer: false,
    },
    Sides {
        text: TWO_ROLES,
        asked: Asked::LeftCopied,
        answer: true,
    },
    Sides {
        text: TWO_ROLES,
        asked: Asked::Copied,
        answer: true,
    },
    Sides {
        text: NAME_TWICE,
        asked: Asked::Names,
        answer: true,
    },
    Sides {
        text: NAME_TWICE,
        asked: Asked::Roles,
        answer: true,
    },
    Sides {
        text: TWO_ROLES,
        asked: Asked::Names,
        answer: false,
    },
];

#[test]
fn normal_forms_copies_names_and_roles_are_as_told(rt: HostRuntime) -> Result<(), Failure> {
    check(rt.alloc(), SIDES)
}

/// 4, 2, 7, 9 by each way to add items.
fn four(alloc: Global) -> Result<Items<u32>, NoMemory> {
    let mut items = Items::from_slice(alloc, &[4])?;
    items.push(2)?;
    items.extend_from_slice(&[7, 9])?;
    Ok(items)
}

fn reads_as_four(items: &Items<u32>) -> bool {
    items.len() == 4
        && !items.is_empty()
        && items.get(2).copied() == Some(7)
        && items.get(4).is_none()
        && items.iter().copied().max() == Some(9)
}

fn keep_their_order(alloc: Global) -> Result<bool, NoMemory> {
    let mut items = four(alloc)?;
    let are_four = items.as_slice() == [4, 2, 7, 9].as_slice() && reads_as_four(&items);
    items.truncate(2);
    let moved = Items::from_vec(items.into_vec());
    let are_two = moved.as_slice() == [4, 2].as_slice();
    drop(moved);
    Ok(are_four && are_two)
}

#[test]
fn items_keep_their_order(rt: HostRuntime) -> Result<(), Failure> {
    check_one(keep_their_order(rt.alloc()))
}
