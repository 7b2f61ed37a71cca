ghost use Rattle.std.specs.Prelude.{◌≡◌, Ok, IfOk, IfErr, option_map};
ghost use Rattle.std.specs.Option.{option_copied};
ghost use Rattle.serde_json.specs.View.{view};
ghost use Rattle.dd_text.specs.Symbols.{Grows};
ghost use Rattle.dd_wire.specs.Forms.{written_of};
ghost use Rattle.dd_wire.specs.Lines.{json_of, form_in, IsRefused};
ghost use Rattle.dd_wire.specs.Requests.{ReadsRequest, TestsLine, declared_names, IsNumberedRequest, IsWrittenRequest};

use crate::code::{BAD_JSON, BAD_SHAPE};
use crate::form::{Form, form_at};
use crate::lookup::resolve;
use crate::names::Names;
use crate::request::{Request, WireErr};
use dd_concept::NoMemory;
use dd_json::ShapeErr;
use dd_text::Symbols;
use serde_json::Value;
use std::alloc::Global;

/// The form of a line, which is given without its line feed: `BAD_JSON` where it is no JSON value, and `BAD_SHAPE` where
/// the value has none of the forms of a request. `NoMemory` may come on any line.
#[tactic(auto, unfolding(crate::specs::Lines::form_in))]
fn read_form(alloc: Global, line: &[u8]) -> Result<Form, WireErr>
    ensures ok { IfOk result (λ form. form_in line.now ≡ Ok (written_of form)) }
    ensures refused { IfErr result (λ e. IsRefused e (form_in line.now)) }
{
    let mut value = match value_of(alloc, line) {
        Ok(Some(value)) => value,
        Ok(None) => return Err(refusal(BAD_JSON)),
        Err(_) => return Err(WireErr::NoMemory),
    };
    match form_at(alloc, &mut value) {
        Ok(form) => Ok(form),
        Err(ShapeErr::Shape) => Err(refusal(BAD_SHAPE)),
        Err(ShapeErr::NoMemory) => Err(WireErr::NoMemory),
    }
}

fn refusal(code: u8) -> WireErr
    ensures { result ≡ WireErr.Code code None }
{
    WireErr::Code { code, n: None }
}

fn value_of(alloc: Global, line: &[u8]) -> Result<Option<Value>, NoMemory>
    ensures { IfOk result (λ found. option_map view found ≡ json_of line.now) }
{
    match Value::from_slice(alloc, line) {
        Ok(value) => Ok(Some(value)),
        Err(e) => {
            if e.is_memory() {
                Err(NoMemory)
            } else {
                Ok(None)
            }
        }
    }
}

/// The request of a line, which is given without its line feed.
///
/// It is refused by the first test that fails, in this order: `BAD_JSON`, `BAD_SHAPE`; `NO_PEERS`, `PEERS_TWICE`,
/// `BAD_PEERS`, `UNKNOWN_PEER`; `BAD_CONCEPT` and `CONCEPT_LIMIT`, each with the number of the first such text; and
/// `SYMBOLS_FULL`. After a refusal the symbols are as before.
pub fn read_request(
    alloc: Global,
    symbols: &mut Symbols,
    names: Option<&Names>,
    line: &[u8],
) -> Result<Request, WireErr>
    ensures reads { ReadsRequest (TestsLine (option_copied names.entry) symbols.old line.now) (declared_names (option_copied names.entry)) symbols.old symbols.new result }
    ensures numbered { IfOk result IsNumberedRequest }
    ensures written { IfOk result (IsWrittenRequest symbols.new) }
    ensures grows { Grows symbols.old symbols.new }
{
    let form = read_form(alloc, line)?;
    resolve(alloc, symbols, names, form)
}
