ghost use Rattle.std.specs.Prelude.{◌≡◌, ◌++◌, ◌∷◌, [], IfErr, IfOk};
ghost use Rattle.dd_cert.specs.Printed.{IsPrintable as IsCertPrintable, cert_value};
ghost use Rattle.dd_server.specs.Finish.{Replies};
ghost use Rattle.dd_server.specs.Windows.{IsWritable};
ghost use Rattle.dd_wire.specs.Replies.{IsPrintable, reply_text};
ghost use Rattle.dd_wire.specs.declared.reply.Reply.TheVariants as reply;
ghost use Rattle.serde_json.specs.View.{view};
ghost use Rattle.serde_json.specs.declared.value.Value.{Value as ValueView};

use dd_answer::Answer;
use dd_cert::print_cert;
use dd_concept::NoMemory;
use dd_peer::Pin;
use dd_text::Symbols;
use dd_wire::{Origin, Reply, print_reply};
use std::alloc::Global;

/// The reply to the ask with this number and this pin, which is given this answer. Without memory for its certificate the reply
/// says so.
pub fn reply_with(
    alloc: Global,
    symbols: &Symbols,
    id: u64,
    from: Origin,
    pin: Pin,
    answer: &Answer,
) -> Result<Reply, Reply>
    requires { IsWritable symbols.now answer.now }
    ensures replies { IfOk result (Replies symbols.now id pin from answer.now) }
    ensures printable { IfOk result IsPrintable }
    ensures memory { IfErr result (λ r. r ≡ reply.Memory id from pin) }
{
    match answer {
        Answer::Yes(_) => decided(alloc, symbols, id, true, from, pin, answer),
        Answer::No(_) => decided(alloc, symbols, id, false, from, pin, answer),
        Answer::RunSpent(run) => Ok(Reply::RunSpent {
            id,
            count: run.labels.as_slice().len() as u64,
            peer: run.peer,
            from,
            pin,
        }),
        Answer::VerdictsSpent(count) => Ok(Reply::VerdictsSpent {
            id,
            count: *count,
            from,
            pin,
        }),
        Answer::Memory => Ok(Reply::Memory { id, from, pin }),
    }
}

/// The reply with the certificate of an answer that has one.
fn decided(
    alloc: Global,
    symbols: &Symbols,
    id: u64,
    yes: bool,
    from: Origin,
    pin: Pin,
    answer: &Answer,
) -> Result<Reply, Reply>
    requires { IsCertPrintable symbols.now answer.now }
    ensures replies { IfOk result (λ r. (cert : ValueView) × (view cert ≡ cert_value symbols.now answer.now) × (r ≡ reply.Decided id yes from pin cert)) }
    ensures printable { IfOk result IsPrintable }
    ensures memory { IfErr result (λ r. r ≡ reply.Memory id from pin) }
{
    match print_cert(alloc, symbols, answer) {
        Ok(cert) => Ok(Reply::Decided {
            id,
            yes,
            from,
            pin,
            cert,
        }),
        Err(_) => Err(Reply::Memory { id, from, pin }),
    }
}

/// A reply as it is written, with its line feed.
pub fn line_of(alloc: Global, reply: &Reply) -> Result<Vec<u8>, NoMemory>
    requires { IsPrintable reply.now }
    ensures { IfOk result (λ line. line.items ≡ reply_text reply.now ++ 10 ∷ []) }
{
    let mut line = print_reply(alloc, reply)?;
    line.push(b'\n')?;
    Ok(line)
}
