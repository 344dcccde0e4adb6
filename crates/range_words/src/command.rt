// The words that the program knows, and what `clap` finds in those that are given. Its help is written in `help.rt`.

ghost use Rattle.std.specs.Prelude.{◌≡◌, ◌≤◌, IfOk, codes, false, map, string_bytes};
ghost use Rattle.clap.specs.Words.{FailsBy, app_of, fault_of, found_of, rows_of, rule_of};
ghost use Rattle.range_options.specs.Limits.{block_limit, depth_limit, worker_limit};
ghost use Rattle.range_words.specs.CommandLine.{HasNumber, files_rule, found_in, homerange, program, number_rule, option_rule};

use crate::version::VERSION;
use clap::{Arg, ArgAction, ArgMatches, Command, Error, value_parser};
use range_options::{BLOCK_LIMIT, DEPTH_LIMIT, WORKER_LIMIT};
use std::alloc::{AllocError, Global};

// An option whose value is any text.
fn text_option<'a>(alloc: Global, name: &'a str, value: &'a str) -> Arg<'a>
    ensures rule { rule_of result ≡ option_rule name.entry.now }
    ensures local { result.global ≡ false }
{
    Arg::new(alloc, name).long(name).value_name(value)
}

// An option whose value is a number from 1 to a limit, which changes the time alone.
fn number_option<'a>(alloc: Global, name: &'a str, limit: u32) -> Arg<'a>
    ensures rule { rule_of result ≡ number_rule name.entry.now limit }
    ensures local { result.global ≡ false }
{
    Arg::new(alloc, name)
        .long(name)
        .value_name("N")
        .value_parser(value_parser!(u32).range(1..=i64::from(limit)))
}

// The files.
fn files_argument<'a>(alloc: Global) -> Arg<'a>
    ensures rule { rule_of result ≡ files_rule }
    ensures local { result.global ≡ false }
{
    Arg::new(alloc, "FILE")
        .value_name("FILE")
        .action(ArgAction::Append)
}

// The program and its version.
fn program<'a>(alloc: Global) -> Command<'a>
    ensures { app_of result ≡ program }
{
    Command::new(alloc, "homerange").version(VERSION)
}

// The program with its options and arguments.
fn whole_command<'a>(alloc: Global) -> Result<Command<'a>, AllocError>
    ensures { IfOk result (λ c. app_of c ≡ homerange) }
{
    program(alloc)
        .arg(text_option(alloc, "percent", "LIST"))?
        .arg(number_option(alloc, "block", BLOCK_LIMIT))?
        .arg(number_option(alloc, "depth", DEPTH_LIMIT))?
        .arg(number_option(alloc, "workers", WORKER_LIMIT))?
        .arg(text_option(alloc, "unit", "UNIT"))?
        .arg(files_argument(alloc))
}

/// What `clap` finds in the words, of which the first is the program's name.
pub(crate) fn found<'a>(alloc: Global, words: &'a [String]) -> Result<ArgMatches<'a>, Error>
    ensures rows { IfOk result (λ m. rows_of (found_of m)
        ≡ found_in (map string_bytes words.entry.now)) }
    ensures fault { FailsBy (fault_of homerange (map string_bytes words.entry.now)) result }
    ensures block { IfOk result (HasNumber (codes "block") block_limit) }
    ensures depth { IfOk result (HasNumber (codes "depth") depth_limit) }
    ensures workers { IfOk result (HasNumber (codes "workers") worker_limit) }
{
    let command = whole_command(alloc)?;
    command.try_get_matches_from(words)
}
