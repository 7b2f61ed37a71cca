//! Sets of numbers: labels below a width, kept as words of 64 bits, and numbers in the order in which they came.
//!
//! `bits` has the type of labels, `words` the functions over slices of words that do its work and that of views elsewhere,
//! `listing` the list of a label's numbers, and `marked` the numbers in the order in which they came. What words mean is
//! `specs/Words.antt`, what is said of labels as sets `specs/Sets.antt`, and of arrivals `specs/Marked.antt`.
#![tactic(auto)]

mod bits;
mod listing;
mod marked;
mod words;

pub use bits::Bits;
pub use listing::{numbers_in, numbers_of};
pub use marked::Marked;
pub use std::alloc::AllocError as NoMemory;
pub use words::{
    are_same, are_within, has_number, keep_all, next_number, put_all, put_number, take_all,
};
