ghost use Rattle.std.specs.Prelude.{◌≤◌, OnOk, OnErr};
ghost use Rattle.dd_lines.specs.Outside.{Rose, Gives, GivesFront};

use crate::outside::{Sink, WriteFault};

/// Gives the whole piece to the sink, in as many calls as it wants. A `WriteFault` comes at the first call that fails;
/// a front of the piece was given then. Takes no memory.
pub fn write_whole<K: Sink>(sink: &mut K, piece: &[u8]) -> Result<(), WriteFault>
    ensures whole { OnOk result (Gives (K.given sink.old) (K.given sink.new) piece.now) }
    ensures front { OnErr result (GivesFront (K.given sink.old) (K.given sink.new) piece.now) }
    ensures failed { OnErr result (Rose (K.fault_count sink.old) (K.fault_count sink.new)) }
    ensures counts { K.fault_count sink.old ≤ K.fault_count sink.new }
{
    let mut at = 0;
    while at < piece.len() {
        match sink.give(&piece[at..]) {
            Ok(given) => at += given,
            Err(_) => return Err(WriteFault),
        }
    }
    Ok(())
}
