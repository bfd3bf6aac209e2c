//! Words to what they ask for.

ghost use Rattle.std.specs.Prelude.{◌≡◌, ◌≢◌, ◌≤◌, map, option_map, option_and_then, IfErr, IfOk, IfSome, MatchResult, Some, None};
ghost use Rattle.std.specs.Prelude.{List};
ghost use Rattle.clap.specs.Words.{Text, HasKind, rows_of, found_of, fault_of, subcommand_rows_of};
ghost use Rattle.fbr_words.specs.Program as program;
ghost use Rattle.fbr_words.specs.Requests.{asked_of, order_of, IsNumber, IsMisread};

use crate::grammar::commands;
use crate::guard::is_unguarded;
use crate::order::{Order, order_in};
use crate::shown::{UNCOUNTED, misfit_in};
use crate::time::HALF_WAY;
use crate::watched::names_in;
use clap::error::ErrorKind;
use clap::{ArgMatches, Error};
use std::alloc::Global;

/// Why words ask for nothing.
#[derive(Drop)]
pub enum Misread {
    /// Memory ran out.
    Memory,
    /// They ask for help or the version, which the error tells.
    Help(Error),
    /// They are none of the program's, and the error tells why.
    Words(Error),
    /// A number or a port in them is none, or they do not go together, and this says which there can be.
    Number(&'static str),
}

// What people are told where a number or an address of `serve` is none.
const UNNUMBERED: &str =
    "fbr: an address is PORT, ADDRESS:PORT or [ADDRESS]:PORT with a port of 1 to 65535, and `--from` takes an ADDRESS, 64 of each at most; `--boot` and `--summary` take a number of 32 bits, `--turns` one of 64, `--boot-file` stands in place of `--boot`, and `--sync` stands with `--record`";

// What people are told where nothing is said of what is checked.
const UNGUARDED: &str =
    "fbr: others reach this address, and nothing would be checked of what they send. `--keys FILE --state FILE` takes only what the devices of a file sealed; `--unsealed` takes what anybody sends. `--keys` and `--state` stand together, and without `--unsealed`";

// What people are told where there are too many names.
const TOO_MANY: &str = "fbr: at most 64 stories are taken, and 64 paths of `--watch`";

// What people are told where there are too many files.
const TOO_MANY_FILES: &str = "fbr: at most 64 files are taken behind `--with`";

// What people are told where the words of a subcommand are none of its own.
fn misfit(name: &str, words: &ArgMatches<'_>) -> &'static str {
    if names_in(words, "with").is_none() {
        TOO_MANY_FILES
    } else if name == "explain" || name == "draw" {
        misfit_in(words, name == "explain")
    } else if name == "serve" {
        if is_unguarded(words) {
            UNGUARDED
        } else {
            UNNUMBERED
        }
    } else if name == "time" {
        HALF_WAY
    } else if name == "sim" || name == "play" || name == "replay" {
        TOO_MANY
    } else {
        UNCOUNTED
    }
}

// The subcommand that the words name, with what they give to it.
fn entered<'a, 'b>(matches: &'b ArgMatches<'a>) -> Option<(&'a str, &'b ArgMatches<'a>)>
    ensures { option_map (λ sub. (sub.0.now, rows_of (found_of sub.1.now))) result ≡ subcommand_rows_of matches.now }
{
    matches.subcommand()
}

// What matched words ask for.
fn order<'a>(matches: &ArgMatches<'a>) -> Result<Order<'a>, Misread>
    ensures asked { MatchResult result (λ o. option_and_then program.order_in (subcommand_rows_of matches.now) ≡ Some (order_of o)) (λ _. option_and_then program.order_in (subcommand_rows_of matches.now) ≡ None) }
    ensures some { IfOk result (λ o. IfSome (program.often_of (asked_of o.request)) (λ n. 1 ≤ n)) }
    ensures number { IfErr result IsNumber }
{
    match entered(matches) {
        Some((name, words)) => match order_in(name, words) {
            Some(order) => Ok(order),
            None => Err(Misread::Number(misfit(name, words))),
        },
        None => Err(Misread::Number(UNCOUNTED)),
    }
}

// Why clap matched nothing.
fn unmatched(error: Error) -> Misread
    ensures { (words : List Text) → HasKind (fault_of program.program words) error → IsMisread words result }
{
    match error.kind() {
        ErrorKind::DisplayHelp | ErrorKind::DisplayVersion => Misread::Help(error),
        ErrorKind::OutOfMemory => Misread::Memory,
        _ => Misread::Words(error),
    }
}

/// What words ask for, of which the first is the program's own name.
pub fn read_words<'a>(alloc: Global, words: &'a [&'a str]) -> Result<Order<'a>, Misread>
    ensures asked { IfOk result (λ o. program.request_of (map (λ word. word.now) words.now) ≡ Some (order_of o)) }
    ensures some { IfOk result (λ o. IfSome (program.often_of (asked_of o.request)) (λ n. 1 ≤ n)) }
    ensures misread { IfErr result (IsMisread (map (λ word. word.now) words.now)) }
{
    let command = match commands(alloc) {
        Ok(command) => command,
        Err(_) => return Err(Misread::Memory),
    };
    match command.try_get_matches_from(words) {
        Ok(matches) => order(&matches),
        Err(error) => Err(unmatched(error)),
    }
}
