//! The program's words as `clap` knows them.
ghost use Rattle.std.specs.Prelude.{◌≡◌, ◌≢◌, ◌∷◌, [], IfOk, Some, codes, false};
ghost use Rattle.clap.specs.Words.{app_of, kind_of, rule_of};
ghost use Rattle.clap.specs.declared.builder.command.Command.TheViews.{out-Command};
ghost use Rattle.clap.specs.declared.error.kind.ErrorKind.TheVariants.{OutOfMemory};
ghost use Rattle.program_words.specs.Asked.{SaysWords};
ghost use Rattle.program_words.specs.Program.{ShowsTexts, number_named, option_named, program, run_words, serve_words};

use crate::WordsFault;
use crate::help::{EXAMPLES, RUN_EXAMPLES, SERVE_EXAMPLES, USAGE, VERSION};
use clap::builder::ValueParser;
use clap::error::ErrorKind;
use clap::{Arg, Command, Error, value_parser};
use std::alloc::{AllocError, Global};

/// The program's words, which begin behind its name.
pub(crate) fn command<'a>(alloc: Global) -> Result<Command<'a>, AllocError>
    ensures words { IfOk result (λ c. app_of c ≡ program) }
    ensures texts { IfOk result (λ c. ShowsTexts (app_of c)) }
{
    let run = run_command(alloc)?;
    let serve = serve_command(alloc)?;
    Command::new(alloc, "table_server")
        .bin_name("table_server")?
        .about("Keep tables in memory, and answer commands on them as lines of JSON")
        .version(VERSION)
        .override_usage(USAGE)
        .after_help(EXAMPLES)
        .no_binary_name(true)
        .disable_help_subcommand(true)
        .subcommand_required(true)
        .subcommand(run)?
        .subcommand(serve)
}

/// The word `run` with its options.
fn run_command<'a>(alloc: Global) -> Result<Command<'a>, AllocError>
    ensures words { IfOk result (λ c. app_of c ≡ run_words) }
    ensures local { IfOk result (λ c. (out-Command c).has_globals ≡ false) }
{
    Command::new(alloc, "run")
        .about("Answer the lines of a file or of standard input")
        .after_help(RUN_EXAMPLES)
        .arg(option(
            alloc,
            "schema",
            "FILE",
            "Schema file of the tables; without it, one table f of columns id and g",
        ))?
        .arg(option(
            alloc,
            "commands",
            "FILE",
            "File of the lines; without it, standard input",
        ))
}

/// The word `serve` with its options.
fn serve_command<'a>(alloc: Global) -> Result<Command<'a>, AllocError>
    ensures words { IfOk result (λ c. app_of c ≡ serve_words) }
    ensures local { IfOk result (λ c. (out-Command c).has_globals ≡ false) }
{
    Command::new(alloc, "serve")
        .about("Answer the lines of connections over a Unix or TCP socket")
        .after_help(SERVE_EXAMPLES)
        .arg(option(alloc, "schema", "FILE", "Schema file of the tables").required(true))?
        .arg(option(
            alloc,
            "listen",
            "ADDRESS",
            "Where to listen: unix:PATH or tcp:IP:PORT",
        )
        .required(true))?
        .arg(workers(alloc))?
        .arg(each(alloc))?
        .arg(option(
            alloc,
            "journal",
            "FILE",
            "File that gets the accepted writes when all threads have ended",
        ))
}

/// The option of the number of threads.
fn workers<'a>(alloc: Global) -> Arg<'a>
    ensures rule { rule_of result ≡ number_named (codes "workers") 16 }
    ensures local { result.global ≡ false }
{
    let parser = value_parser!(u32).range(1..=16);
    number(alloc, "workers", "Threads that serve, from 1 to 16", parser)
}

/// The option of the number of connections.
fn each<'a>(alloc: Global) -> Arg<'a>
    ensures rule { rule_of result ≡ number_named (codes "each") 1000000 }
    ensures local { result.global ≡ false }
{
    let parser = value_parser!(u32).range(1..=1_000_000);
    number(
        alloc,
        "each",
        "Connections that each thread serves, from 1 to 1000000",
        parser,
    )
}

/// An option that is a number, and 1 where it is absent.
fn number<'a>(alloc: Global, name: &'a str, help: &'a str, parser: ValueParser<'a>) -> Arg<'a>
    ensures rule { rule_of result ≡ record (option_named name.entry.now) { defaults = codes "1" ∷ []; parser = Some parser.entry } }
    ensures local { result.global ≡ false }
{
    option(alloc, name, "NUMBER", help)
        .value_parser(parser)
        .default_value("1")
}

/// An option with one value.
fn option<'a>(alloc: Global, name: &'a str, value: &'a str, help: &'a str) -> Arg<'a>
    ensures rule { rule_of result ≡ option_named name.entry.now }
    ensures local { result.global ≡ false }
{
    Arg::new(alloc, name)
        .long(name)
        .value_name(value)
        .help(help)
}

/// The fault that stands for an error of `clap`.
pub(crate) fn fault_of(alloc: Global, error: &Error) -> WordsFault
    ensures { SaysWords (kind_of error.now ≢ OutOfMemory) result }
{
    if error.kind() == ErrorKind::OutOfMemory {
        return WordsFault::Memory;
    }
    match format!(in alloc; "{error}") {
        Ok(text) => WordsFault::Words(text),
        Err(_) => WordsFault::Memory,
    }
}
