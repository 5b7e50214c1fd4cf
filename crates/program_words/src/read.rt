//! Reading the words of the program.
ghost use Rattle.std.specs.Prelude.{◌≡◌, ◌≤◌, [], IfOk, IfSome, IsOk, option_and_then, option_map, ⊤};
ghost use Rattle.clap.specs.Words.{found_of, one_text, rows_of, subcommand_rows_of};
ghost use Rattle.program_words.specs.Asked.{AnswersFor, AreBounded, IsBounded, SaysWords, asking_by, asking_of, number_in, serve, serving_in, serving_of, texts};

use crate::command::{command, fault_of};
use crate::{Address, Asked, WordsFault};
use clap::ArgMatches;
use std::alloc::Global;

/// Reads the words that follow the program's name. No words are `run` with neither file.
pub fn read_words<'a>(alloc: Global, words: &'a [String]) -> Result<Asked<'a>, WordsFault>
    ensures answers { AnswersFor (asking_of (texts words.entry.now)) result }
    ensures bounds { IfOk result IsBounded }
    ensures no_words { words.entry.now ≡ [] → IsOk result }
{
    if words.is_empty() {
        return Ok(Asked::Run {
            schema: None,
            commands: None,
        });
    }
    match command(alloc)?.try_get_matches_from(words) {
        Ok(matches) => asked_by(alloc, &matches),
        Err(error) => Err(fault_of(alloc, &error)),
    }
}

/// What the matches ask for.
fn asked_by<'a>(alloc: Global, matches: &ArgMatches<'a>) -> Result<Asked<'a>, WordsFault>
    ensures answers { AnswersFor (option_and_then asking_by (subcommand_rows_of matches.now)) result }
    ensures bounds { IfOk result IsBounded }
{
    let Some((name, options)) = matches.subcommand() else {
        return Err(not_asked(alloc));
    };
    if name == "run" {
        return Ok(Asked::Run {
            schema: options.get_str("schema"),
            commands: options.get_str("commands"),
        });
    }
    if name != "serve" {
        return Err(not_asked(alloc));
    }
    serve_by(alloc, options)
}

/// What the options of `serve` ask for.
fn serve_by<'a>(alloc: Global, options: &ArgMatches<'a>) -> Result<Asked<'a>, WordsFault>
    ensures answers { AnswersFor (option_map serve (serving_in (rows_of (found_of options.now)))) result }
    ensures bounds { IfOk result IsBounded }
{
    let Some(given) = given_by(options) else {
        return Err(not_asked(alloc));
    };
    let Some(listen) = Address::read(given.listen) else {
        return Err(WordsFault::Listen);
    };
    Ok(Asked::Serve {
        schema: given.schema,
        listen,
        workers: given.workers,
        each: given.each,
        journal: given.journal,
    })
}

/// The values of the options of `serve`.
#[derive(Clone, Copy)]
struct Given<'a> {
    schema: &'a str,
    listen: &'a str,
    workers: u32,
    each: u32,
    journal: Option<&'a str>,
}

/// The values of the options of `serve`, where all that it needs are there.
fn given_by<'a>(options: &ArgMatches<'a>) -> Option<Given<'a>>
    ensures answers { option_map serving_of result ≡ serving_in (rows_of (found_of options.now)) }
    ensures bounds { IfSome result AreBounded }
{
    Some(Given {
        schema: options.get_str("schema")?,
        listen: options.get_str("listen")?,
        workers: number(options, "workers", 16)?,
        each: number(options, "each", 1_000_000)?,
        journal: options.get_str("journal"),
    })
}

/// The number of an option, where it is from 1 to `most`.
fn number(options: &ArgMatches, name: &str, most: u32) -> Option<u32>
    ensures number { result ≡ option_and_then (number_in 1 most) (one_text (found_of options.now) name.now) }
    ensures bounds { IfSome result (λ n. (1 ≤ n) × (n ≤ most)) }
{
    let number: u32 = options.get_one(name)?;
    if 1 <= number && number <= most {
        Some(number)
    } else {
        None
    }
}

/// Stands in for a text of `clap`, which refuses words that name nothing to do itself.
fn not_asked(alloc: Global) -> WordsFault
    ensures { SaysWords ⊤ result }
{
    match String::from_str(alloc, "error: the words name nothing to do\n") {
        Ok(text) => WordsFault::Words(text),
        Err(_) => WordsFault::Memory,
    }
}
