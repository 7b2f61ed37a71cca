use crate::rows::{Failure, check_one};
use dd_concept::Items;
use dd_json::{
    ShapeErr, Text, count_of, has, indexes, list, listed, maybe_number, number_in, text, text_in,
    texts, wants_members,
};
use serde_json::Value;
use std::alloc::Global;

const VALUE: &str = r#"{"c":[0,4294967295],"a":"x","b":["\u0078",""],"d":18446744073709551615}"#;

fn is_x(found: Result<Text, ShapeErr>) -> bool {
    match found {
        Ok(text) => text.as_slice() == b"x".as_slice(),
        Err(_) => false,
    }
}

fn are_x_and_none(found: Result<Items<Text>, ShapeErr>) -> bool {
    match found {
        Ok(texts) => is_x_and_none(texts.as_slice()),
        Err(_) => false,
    }
}

fn is_x_and_none(texts: &[Text]) -> bool {
    match texts {
        [first, second] => first.as_slice() == b"x".as_slice() && second.as_slice().is_empty(),
        _ => false,
    }
}

fn are_none(found: Result<Items<Text>, ShapeErr>) -> bool {
    match found {
        Ok(texts) => texts.as_slice().is_empty(),
        Err(_) => false,
    }
}

fn are_ends(found: Result<Items<u32>, ShapeErr>) -> bool {
    match found {
        Ok(numbers) => numbers.as_slice() == [0, 4294967295].as_slice(),
        Err(_) => false,
    }
}

fn reads_items(alloc: Global, value: &Value) -> bool {
    match list(value, "b") {
        Ok([first, second]) => is_x(text_in(alloc, first)) && number_in(second).is_err(),
        _ => false,
    }
}

fn reads_members(alloc: Global, value: &Value) -> bool {
    is_x(text(alloc, value, "a"))
        && are_x_and_none(texts(alloc, value, "b"))
        && are_none(listed(alloc, value, "z"))
        && are_ends(indexes(alloc, value, "c"))
}

fn counts_members(value: &Value) -> bool {
    matches!(maybe_number(value, "d"), Ok(Some(18446744073709551615)))
        && matches!(maybe_number(value, "z"), Ok(None))
        && has(value, "a")
        && count_of(value, "z") == 0
        && wants_members(value, 4).is_ok()
        && wants_members(value, 3).is_err()
}

fn reads_value(alloc: Global) -> bool {
    match Value::from_str(alloc, VALUE) {
        Ok(value) => {
            let is_right = reads_by_kinds(alloc, &value);
            drop(value);
            is_right
        }
        Err(_) => false,
    }
}

fn reads_by_kinds(alloc: Global, value: &Value) -> bool {
    reads_members(alloc, value) && reads_items(alloc, value) && counts_members(value)
}

#[test]
fn members_are_read_by_their_kinds(rt: HostRuntime) -> Result<(), Failure> {
    check_one(Ok(reads_value(rt.alloc())))
}
