// The numbers that a parse gives.
ghost use Rattle.std.specs.Prelude.{◌≡◌, ◌≤◌};
ghost use Rattle.clap.specs.Words.{first_value, found_of};
ghost use Rattle.dd_words.specs.Numbers.{Fit, FitsGenerator, FitsSession, IsGenerated, IsSession, generated_by, number_or, session_by};

use crate::command::{Generated, Options};
use clap::ArgMatches;

// The number of an option, or another one where it is not given.
fn number(matches: &ArgMatches, id: &str, least: u32, most: u32, other: u32) -> u32
    requires other { (least ≤ other) × (other ≤ most) }
    requires fit { Fit (found_of matches.now) id.now least most }
    ensures number { result ≡ number_or other (first_value (found_of matches.now) id.now) }
    ensures range { (least ≤ result) × (result ≤ most) }
{
    let Some(text) = matches.get_str(id) else {
        return other;
    };
    let Ok(n) = text.parse::<u32>() else {
        return other;
    };
    n
}

pub fn session_numbers(matches: &ArgMatches) -> Options
    requires { FitsSession (found_of matches.now) }
    ensures numbers { result ≡ session_by (first_value (found_of matches.now)) }
    ensures range { IsSession result }
{
    Options {
        workers: number(matches, "workers", 1, 16, 4),
        window: number(matches, "window", 1, 64, 16),
        expansions: number(matches, "expansions", 1, 200_000, 20_000),
        verdicts: number(matches, "verdicts", 1, 20_000, 10_000),
        cache: number(matches, "cache", 1, 1_024, 64),
    }
}

pub fn generator_numbers(matches: &ArgMatches) -> Generated
    requires { FitsGenerator (found_of matches.now) }
    ensures numbers { result ≡ generated_by (first_value (found_of matches.now)) }
    ensures range { IsGenerated result }
{
    Generated {
        seed: number(matches, "seed", 0, 4_294_967_295, 0),
        peers: number(matches, "peers", 2, 64, 2),
        size: number(matches, "size", 1, 1_000, 1),
    }
}
