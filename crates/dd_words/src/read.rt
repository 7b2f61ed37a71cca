// Words, read as a command.
ghost use Rattle.std.specs.Prelude.{◌≡◌, Err, IfOk, [], false, map, string_bytes};
ghost use Rattle.clap.specs.Words.{app_of, fault_of, kind_of, takes};
ghost use Rattle.dd_words.specs.Apps.{alone_app, generator_app, serve_app};
ghost use Rattle.dd_words.specs.Numbers.{IsGenerated, IsSession, generated_of, session_of};
ghost use Rattle.dd_words.specs.Suits.{SuitsGenerator, SuitsSession};
ghost use Rattle.dd_words.specs.Words.{IsCommand, IsNoCommand, NamesNone};

use crate::command::{Command, Generated, Options, WordsErr};
use crate::numbers::{generator_numbers, session_numbers};
use crate::options::{alone_command, generator_command, serve_command};
use clap::Error;
use clap::error::ErrorKind;
use std::alloc::Global;

fn refusal(error: &Error) -> WordsErr
    ensures { result ≡ WordsErr.Words → kind_of error.now ≡ ErrorKind.OutOfMemory → ⊥ }
{
    match error.kind() {
        ErrorKind::OutOfMemory => WordsErr::NoMemory,
        _ => WordsErr::Words,
    }
}

fn session<'a>(command: clap::Command<'a>, words: &'a [String]) -> Result<Options, WordsErr>
    requires { SuitsSession (app_of command) }
    ensures numbers { IfOk result (λ o. o ≡ session_of (app_of command.entry) (map string_bytes words.now)) }
    ensures range { IfOk result IsSession }
    ensures taken { IfOk result (λ _. fault_of (app_of command.entry) (map string_bytes words.now) ≡ []) }
    ensures words { result ≡ Err WordsErr.Words → takes (app_of command.entry) (map string_bytes words.now) ≡ false }
{
    match command.try_get_matches_from(words) {
        Ok(matches) => Ok(session_numbers(&matches)),
        Err(error) => Err(refusal(&error)),
    }
}

fn generated<'a>(command: clap::Command<'a>, words: &'a [String]) -> Result<Generated, WordsErr>
    requires { SuitsGenerator (app_of command) }
    ensures numbers { IfOk result (λ g. g ≡ generated_of (app_of command.entry) (map string_bytes words.now)) }
    ensures range { IfOk result IsGenerated }
    ensures taken { IfOk result (λ _. fault_of (app_of command.entry) (map string_bytes words.now) ≡ []) }
    ensures words { result ≡ Err WordsErr.Words → takes (app_of command.entry) (map string_bytes words.now) ≡ false }
{
    match command.try_get_matches_from(words) {
        Ok(matches) => Ok(generator_numbers(&matches)),
        Err(error) => Err(refusal(&error)),
    }
}

fn serve(alloc: Global, words: &[String]) -> Result<Options, WordsErr>
    ensures numbers { IfOk result (λ o. o ≡ session_of serve_app (map string_bytes words.now)) }
    ensures range { IfOk result IsSession }
    ensures taken { IfOk result (λ _. fault_of serve_app (map string_bytes words.now) ≡ []) }
    ensures words { result ≡ Err WordsErr.Words → takes serve_app (map string_bytes words.now) ≡ false }
{
    let Ok(command) = serve_command(alloc) else {
        return Err(WordsErr::NoMemory);
    };
    session(command, words)
}

fn alone(alloc: Global, words: &[String]) -> Result<Options, WordsErr>
    ensures numbers { IfOk result (λ o. o ≡ session_of alone_app (map string_bytes words.now)) }
    ensures range { IfOk result IsSession }
    ensures taken { IfOk result (λ _. fault_of alone_app (map string_bytes words.now) ≡ []) }
    ensures words { result ≡ Err WordsErr.Words → takes alone_app (map string_bytes words.now) ≡ false }
{
    let Ok(command) = alone_command(alloc) else {
        return Err(WordsErr::NoMemory);
    };
    session(command, words)
}

fn generator<'a>(alloc: Global, name: &'a str, words: &'a [String]) -> Result<Generated, WordsErr>
    ensures numbers { IfOk result (λ g. g ≡ generated_of (generator_app name.now) (map string_bytes words.now)) }
    ensures range { IfOk result IsGenerated }
    ensures taken { IfOk result (λ _. fault_of (generator_app name.now) (map string_bytes words.now) ≡ []) }
    ensures words { result ≡ Err WordsErr.Words → takes (generator_app name.now) (map string_bytes words.now) ≡ false }
{
    let Ok(command) = generator_command(alloc, name) else {
        return Err(WordsErr::NoMemory);
    };
    generated(command, words)
}

/// The command that the words give: the first one is its name, and `clap` reads the others. `Words` comes where there is no
/// first word or it is no command, and otherwise only where `clap` does not take the words.
pub fn read_words(alloc: Global, words: &[String]) -> Result<Command, WordsErr>
    ensures command { IfOk result (λ c. IsCommand c (map string_bytes words.now)) }
    ensures none { NamesNone (map string_bytes words.now) → result ≡ Err WordsErr.Words }
    ensures words { result ≡ Err WordsErr.Words → IsNoCommand (map string_bytes words.now) }
{
    let Some(first) = words.first() else {
        return Err(WordsErr::Words);
    };
    if first.as_str() == "serve" {
        return Ok(Command::Serve(serve(alloc, words)?));
    }
    if first.as_str() == "alone" {
        return Ok(Command::Alone(alone(alloc, words)?));
    }
    if first.as_str() == "make" {
        return Ok(Command::Make(generator(alloc, "make", words)?));
    }
    if first.as_str() == "drill" {
        return Ok(Command::Drill(generator(alloc, "drill", words)?));
    }
    Err(WordsErr::Words)
}
