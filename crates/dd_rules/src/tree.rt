ghost use Rattle.std.specs.Prelude.{◌≡◌, ◌<◌, length, slice_get, Some, IfOk};
ghost use Rattle.dd_rules.specs.Trees.{Appends, IsRows, IsWithin, concept_of, formed, trees};
ghost use Rattle.dd_rules.specs.Numbers.{number_of};

use crate::row;
use crate::row::{Form, Row};
use dd_concept::{Concept, NoMemory};
use indexmap::IndexSet;
use std::alloc::Global;

/// The number of the row, which is added where it is new.
pub fn put(rows: &mut IndexSet<Row>, row: Row) -> Result<u32, NoMemory>
    requires rows { IsRows rows.old.keys }
    requires within { IsWithin row (length rows.old.keys) }
    ensures found { IfOk result (λ n. slice_get (trees rows.new.keys) n ≡ Some (concept_of (trees rows.old.keys) row)) }
    ensures grows { Appends (trees rows.old.keys) (trees rows.new.keys) }
    ensures rows { IsRows rows.new.keys }
{
    if rows.len() >= 4_294_967_295 {
        return Err(NoMemory);
    }
    let Ok((at, _)) = rows.insert_full(row) else {
        return Err(NoMemory);
    };
    Ok(at as u32)
}

/// The number of the row, if it is there.
pub fn place(rows: &IndexSet<Row>, row: Row) -> Option<u32>
    requires rows { IsRows rows.now.keys }
    requires within { IsWithin row (length rows.now.keys) }
    ensures { result ≡ number_of (trees rows.now.keys) (concept_of (trees rows.now.keys) row) }
{
    match rows.get_index_of(&row) {
        Some(n) => Some(n as u32),
        None => None,
    }
}

/// The number of the concept that is meant by the tree. It is added, behind its parts, where it is new.
pub fn add(rows: &mut IndexSet<Row>, form: Form, c: &Concept) -> Result<u32, NoMemory>
    requires { IsRows rows.old.keys }
    ensures found { IfOk result (λ n. slice_get (trees rows.new.keys) n ≡ Some (formed form c.now)) }
    ensures grows { Appends (trees rows.old.keys) (trees rows.new.keys) }
    ensures rows { IsRows rows.new.keys }
{
    match c {
        Concept::Top => put(rows, row::top(form)),
        Concept::Bottom => put(rows, row::bottom(form)),
        Concept::Name(a) => match form {
            Form::Itself | Form::Normal => put(rows, Row::Name(*a)),
            Form::Complement => {
                let part = put(rows, Row::Name(*a))?;
                put(rows, Row::Not(part))
            }
        },
        Concept::Not(d) => match form {
            Form::Itself => {
                let part = add(rows, form, d.get())?;
                put(rows, Row::Not(part))
            }
            Form::Normal => add(rows, Form::Complement, d.get()),
            Form::Complement => add(rows, Form::Normal, d.get()),
        },
        Concept::And(d, e) => {
            let left = add(rows, form, d.get())?;
            let right = add(rows, form, e.get())?;
            put(rows, row::conjunction(form, left, right))
        }
        Concept::Or(d, e) => {
            let left = add(rows, form, d.get())?;
            let right = add(rows, form, e.get())?;
            put(rows, row::disjunction(form, left, right))
        }
        Concept::HasSome(r, d) => {
            let part = add(rows, form, d.get())?;
            put(rows, row::existential(form, *r, part))
        }
        Concept::HasAll(r, d) => {
            let part = add(rows, form, d.get())?;
            put(rows, row::universal(form, *r, part))
        }
    }
}

/// The number of the concept, if it is there.
pub fn find(rows: &IndexSet<Row>, c: &Concept) -> Option<u32>
    requires { IsRows rows.now.keys }
    ensures { result ≡ number_of (trees rows.now.keys) c.now }
{
    match c {
        Concept::Top => place(rows, Row::Top),
        Concept::Bottom => place(rows, Row::Bottom),
        Concept::Name(a) => place(rows, Row::Name(*a)),
        Concept::Not(d) => {
            let Some(part) = find(rows, d.get()) else {
                return None;
            };
            place(rows, Row::Not(part))
        }
        Concept::And(d, e) => {
            let Some(left) = find(rows, d.get()) else {
                return None;
            };
            let Some(right) = find(rows, e.get()) else {
                return None;
            };
            place(rows, Row::And(left, right))
        }
        Concept::Or(d, e) => {
            let Some(left) = find(rows, d.get()) else {
                return None;
            };
            let Some(right) = find(rows, e.get()) else {
                return None;
            };
            place(rows, Row::Or(left, right))
        }
        Concept::HasSome(r, d) => {
            let Some(part) = find(rows, d.get()) else {
                return None;
            };
            place(rows, Row::HasSome(*r, part))
        }
        Concept::HasAll(r, d) => {
            let Some(part) = find(rows, d.get()) else {
                return None;
            };
            place(rows, Row::HasAll(*r, part))
        }
    }
}
