use crate::rows::{Failure, check_one};
use dd_concept::NoMemory;
use dd_text::Symbols;
use std::alloc::Global;

/// The number that a text gets among the roles or the names, or 99 where it gets none.
fn added(alloc: Global, symbols: &mut Symbols, is_role: bool, text: &[u8]) -> u32 {
    let number = if is_role {
        symbols.add_role(alloc, text)
    } else {
        symbols.add_name(alloc, text)
    };
    number.unwrap_or(99)
}

/// The number of a new role that is forgotten again.
fn forgotten(alloc: Global, symbols: &mut Symbols, text: &[u8]) -> u32 {
    let mark = symbols.mark();
    let number = symbols.add_role(alloc, text).unwrap_or(99);
    symbols.back(mark);
    number
}

/// The first step that gets another number.
fn first_wrong(
    alloc: Global,
    symbols: &mut Symbols,
    steps: &[(bool, &[u8], u32)],
) -> Option<usize> {
    for (i, (is_role, text, wanted)) in steps.iter().enumerate() {
        if added(alloc, symbols, *is_role, text) != *wanted {
            return Some(i);
        }
    }
    None
}

const STEPS: &[(bool, &[u8], u32)] = &[
    (false, b"Dog", 0),
    (false, b"Cat", 1),
    (true, b"Cat", 0),
    (false, b"Dog", 0),
    (false, b"some", 99),
];

fn are_apart(alloc: Global) -> Result<bool, NoMemory> {
    let mut symbols = Symbols::new(alloc)?;
    let are_steps_right = first_wrong(alloc, &mut symbols, STEPS).is_none();
    let is_forgotten = forgotten(alloc, &mut symbols, b"sees") == 1;
    let are_counted = symbols.name_count() == 2 && symbols.role_count() == 1;
    drop(symbols);
    Ok(are_steps_right && is_forgotten && are_counted)
}

#[test]
fn numbers_names_and_roles_apart(rt: HostRuntime) -> Result<(), Failure> {
    check_one(are_apart(rt.alloc()))
}
