// What `clap` is told of each command.
ghost use Rattle.std.specs.Prelude.{◌≡◌, IfOk, false};
ghost use Rattle.clap.specs.Words.{app_of, rule_of, with_rule};
ghost use Rattle.dd_words.specs.Apps.{option_rule, serve_app, alone_app, generator_app, bounded};

use crate::NoMemory;
use clap::builder::ValueParser;
use clap::{Arg, ArgAction, Command};
use std::alloc::Global;

fn option<'a>(alloc: Global, name: &'a str, least: u64, most: u64, is_needed: bool) -> Arg<'a>
    ensures rule { rule_of result ≡ option_rule name.entry.now least most is_needed }
    ensures local { result.global ≡ false }
{
    Arg::new(alloc, name)
        .long(name)
        .action(ArgAction::Set)
        .required(is_needed)
        .value_parser(ValueParser::Unsigned(least, most))
}

// The command with one more option.
fn with_option<'a>(
    alloc: Global,
    command: Command<'a>,
    name: &'a str,
    least: u64,
    most: u64,
    is_needed: bool,
) -> Result<Command<'a>, NoMemory>
    ensures app { IfOk result (λ c. app_of c ≡ with_rule (app_of command.entry) (option_rule name.entry.now least most is_needed)) }
{
    command.arg(option(alloc, name, least, most, is_needed))
}

// The command with the bounds of a session.
fn with_bounds<'a>(alloc: Global, command: Command<'a>) -> Result<Command<'a>, NoMemory>
    ensures app { IfOk result (λ c. app_of c ≡ bounded (app_of command.entry)) }
{
    let command = with_option(alloc, command, "window", 1, 64, false)?;
    let command = with_option(alloc, command, "expansions", 1, 200_000, false)?;
    let command = with_option(alloc, command, "verdicts", 1, 20_000, false)?;
    with_option(alloc, command, "cache", 1, 1_024, false)
}

#[tactic(auto, unfolding(crate::specs::Apps::serve_app))]
pub fn serve_command<'a>(alloc: Global) -> Result<Command<'a>, NoMemory>
    ensures app { IfOk result (λ c. app_of c ≡ serve_app) }
{
    let command = Command::new(alloc, "serve");
    let command = with_option(alloc, command, "workers", 1, 16, false)?;
    with_bounds(alloc, command)
}

#[tactic(auto, unfolding(crate::specs::Apps::alone_app))]
pub fn alone_command<'a>(alloc: Global) -> Result<Command<'a>, NoMemory>
    ensures app { IfOk result (λ c. app_of c ≡ alone_app) }
{
    with_bounds(alloc, Command::new(alloc, "alone"))
}

#[tactic(auto, unfolding(crate::specs::Apps::generator_app))]
pub fn generator_command<'a>(alloc: Global, name: &'a str) -> Result<Command<'a>, NoMemory>
    ensures app { IfOk result (λ c. app_of c ≡ generator_app name.entry.now) }
{
    let command = Command::new(alloc, name);
    let command = with_option(alloc, command, "seed", 0, 4_294_967_295, true)?;
    let command = with_option(alloc, command, "peers", 2, 64, true)?;
    with_option(alloc, command, "size", 1, 1_000, true)
}
