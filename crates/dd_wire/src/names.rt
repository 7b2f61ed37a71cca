ghost use Rattle.std.specs.Prelude.{◌≡◌, ◌<◌, ◌≤◌, IfOk, IsTrue, length, slice_get, Some, None, if◌then◌else◌};
ghost use Rattle.dd_text.specs.Names.{names_a_thing};
ghost use Rattle.dd_text.specs.Symbols.{has_text, number_of};
ghost use Rattle.dd_wire.specs.Placed.{are_peers};

use dd_concept::{Items, NoMemory};
use dd_json::Text;
use dd_text::Symbols;
use std::alloc::Global;
use std::marker::Model;

/// The names of the declared peers: a peer's number is its position, from 0.
#[derive(Drop)]
pub struct Names {
    texts: Symbols,
}

impl Model for Names {
    ghost use Rattle.std.specs.Prelude.{ℕ, List};
    ghost use Rattle.std.specs.Coded.{coded_list, coded_ℕ};

    ghost Value = { List (List ℕ) };

    ghost coded = { coded_list (coded_list coded_ℕ) };

    ghost view = { λ n. n.texts.names };
}

impl Names {
    /// These names, which are 1 to 64 different ones.
    pub fn new(alloc: Global, names: &Items<Text>) -> Result<Names, NoMemory>
        requires { IsTrue (are_peers names.now) }
        ensures { IfOk result (λ n. n ≡ names.now) }
    {
        let mut texts = Symbols::new(alloc)?;
        for name in names.as_slice() {
            if texts.add_name(alloc, name.as_slice()).is_err() {
                return Err(NoMemory);
            }
        }
        Ok(Names { texts })
    }

    /// How many peers there are.
    pub fn len(&self) -> u32
        ensures { result ≡ length self.now }
    {
        self.texts.name_count()
    }

    /// The name of the peer with this number.
    pub fn name(&self, peer: u32) -> &[u8]
        requires { peer < length self.now }
        ensures name { slice_get self.now peer ≡ Some result.now }
        ensures named { IsTrue (names_a_thing result.now) }
    {
        let _mark = self.texts.mark();
        self.texts.name(peer)
    }

    /// The number of the peer with this name, none where it is not declared.
    pub fn number(&self, name: &[u8]) -> Option<u32>
        ensures { result ≡ (if has_text self.now name.now then Some (number_of self.now name.now) else None) }
    {
        let number = self.texts.name_number(name);
        if number < self.texts.name_count() {
            Some(number)
        } else {
            None
        }
    }
}
