//! The requests that are made from three numbers.
ghost use Rattle.std.specs.Prelude.{◌≡◌, ◌≢◌, ◌≤◌, ◌++◌, ◌∷◌, [], OnErr, OnOk, map};
ghost use Rattle.dd_lines.specs.Outside.{Gives, GivesFront, Rose};
ghost use Rattle.dd_words.specs.Numbers.{IsGenerated};
ghost use Rattle.drago.specs.Made.{GivesMade, text_of};

use dd_lines::{Sink, WriteFault, write_whole};
use dd_server::Status;
use dd_words::Generated;
use std::alloc::Global;

/// Writes the requests that are made from these numbers, each with a line feed.
pub fn make<K: Sink>(alloc: Global, from: Generated, sink: &mut K) -> Status
    requires { IsGenerated from }
    ensures made { GivesMade from result (K.given sink.old) (K.given sink.new) }
    ensures fault { result ≡ Status.WriteFault → Rose (K.fault_count sink.old) (K.fault_count sink.new) }
    ensures no_words { result ≢ Status.Words }
    ensures counts { K.fault_count sink.old ≤ K.fault_count sink.new }
{
    let lines = match dd_gen::make(alloc, from.seed, from.peers, from.size) {
        Ok(lines) => lines,
        Err(_) => return Status::Memory,
    };
    match give_lines(lines.as_slice(), sink) {
        Ok(()) => Status::Done,
        Err(_) => Status::WriteFault,
    }
}
/// Gives the lines to the sink, each with a line feed.
fn give_lines<K: Sink>(lines: &[Vec<u8>], sink: &mut K) -> Result<(), WriteFault>
    ensures whole { OnOk result (Gives (K.given sink.old) (K.given sink.new) (text_of (map (λ line. line.items) lines.now))) }
    ensures front { OnErr result (GivesFront (K.given sink.old) (K.given sink.new) (text_of (map (λ line. line.items) lines.now))) }
    ensures fault { OnErr result (Rose (K.fault_count sink.old) (K.fault_count sink.new)) }
    ensures counts { K.fault_count sink.old ≤ K.fault_count sink.new }
{
    for line in lines {
        give_line(line.as_slice(), sink)?;
    }
    Ok(())
}

/// Gives one line and a line feed.
fn give_line<K: Sink>(line: &[u8], sink: &mut K) -> Result<(), WriteFault>
    ensures whole { OnOk result (Gives (K.given sink.old) (K.given sink.new) (line.now ++ 10 ∷ [])) }
    ensures front { OnErr result (GivesFront (K.given sink.old) (K.given sink.new) (line.now ++ 10 ∷ [])) }
    ensures fault { OnErr result (Rose (K.fault_count sink.old) (K.fault_count sink.new)) }
    ensures counts { K.fault_count sink.old ≤ K.fault_count sink.new }
{
    write_whole(sink, line)?;
    write_whole(sink, b"\n")
}
