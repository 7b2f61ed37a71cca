//! The elements of a model in the making: positions of labels, each with its place.
ghost use Rattle.std.specs.Prelude.{◌≡◌, ◌<◌, [], IfOk, Some, length, slice_get, vec_len};
ghost use Rattle.dd_set.specs.Marked.{with_arrival};
ghost use Rattle.dd_open.specs.Places.{ArePlaces};

use dd_set::{Marked, NoMemory};
use std::alloc::Global;

/// The positions of the elements' labels, in the order in which the elements came, and of each position its place.
#[derive(Drop)]
pub(crate) struct Elements {
    pub(crate) marked: Marked,
    places: Vec<u32>,
    ghost wide: { vec_len places ≡ marked.bound },
    ghost placed: { ArePlaces marked.list places.items },
}

impl Elements {
    /// No elements, with room for one at each position below the bound.
    pub(crate) fn new(alloc: Global, bound: u32) -> Result<Elements, NoMemory>
        ensures bound { IfOk result (λ e. e.marked.bound ≡ bound) }
        ensures empty { IfOk result (λ e. e.marked.list ≡ []) }
    {
        Ok(Elements {
            marked: Marked::new(alloc, bound)?,
            places: vec![in alloc; 0; bound as usize]?,
        })
    }

    /// The place of the element with the label at this position, which is added where it is new.
    pub(crate) fn place(&mut self, n: u32) -> u32
        requires { n < self.old.marked.bound }
        ensures bound { self.new.marked.bound ≡ self.old.marked.bound }
        ensures list { self.new.marked.list ≡ with_arrival self.old.marked.list n }
        ensures there { slice_get self.new.marked.list result ≡ Some n }
    {
        if self.marked.add(n) {
            let place = self.marked.len() - 1;
            self.places[n as usize] = place;
            return place;
        }
        self.places[n as usize]
    }
}
