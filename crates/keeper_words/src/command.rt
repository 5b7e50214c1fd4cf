//! The program's words as `clap` knows them.
ghost use Rattle.std.specs.Prelude.{◌≡◌, ◌≢◌, ◌∷◌, [], IfOk, Some, codes, false, pos};
ghost use Rattle.clap.specs.Words.{app_of, kind_of, rule_of};
ghost use Rattle.clap.specs.declared.builder.value_parser.ValueParser.TheVariants.{Signed};
ghost use Rattle.clap.specs.declared.error.kind.ErrorKind.TheVariants.{OutOfMemory};
ghost use Rattle.program_words.specs.Asked.{SaysWords};
ghost use Rattle.program_words.specs.Program.{option_named, required_named};
ghost use Rattle.keeper_words.specs.Keeper.{ShowsTexts, default_named, flag_named, keeper, number_named};

use crate::help::{EXAMPLES, USAGE, VERSION};
use clap::error::ErrorKind;
use clap::{Arg, ArgAction, Command, Error, value_parser};
use program_words::WordsFault;
use std::alloc::{AllocError, Global};

/// The program's words, which begin behind its name.
pub(crate) fn command<'a>(alloc: Global) -> Result<Command<'a>, AllocError>
    ensures words { IfOk result (λ c. app_of c ≡ keeper) }
    ensures texts { IfOk result (λ c. ShowsTexts (app_of c)) }
{
    Command::new(alloc, "table_keeper")
        .bin_name("table_keeper")?
        .about("Keep tables in a folder, and answer commands on them as lines of JSON")
        .version(VERSION)
        .override_usage(USAGE)
        .after_help(EXAMPLES)
        .no_binary_name(true)
        .arg(required(alloc, "schema", "FILE", "Schema file of the tables"))?
        .arg(listen(alloc))?
        .arg(required(
            alloc,
            "data",
            "FOLDER",
            "Folder of the logs, made where it is absent",
        ))?
        .arg(workers(alloc))?
        .arg(sync(alloc))?
        .arg(idle(alloc))?
        .arg(flag(
            alloc,
            "compact",
            "In place of --listen: write the state of each table, with an empty log behind it, and end",
        ))?
        .arg(option(
            alloc,
            "export",
            "NAME",
            "In place of --listen: print the writes of this table's log, and end",
        ))?
        .arg(option(
            alloc,
            "import",
            "NAME",
            "In place of --listen: take a journal from standard input into this table, which is empty, and end",
        ))?
        .arg(option(
            alloc,
            "dump",
            "NAME",
            "In place of --listen: print the records of this table as commands that insert them, and end",
        ))?
        .arg(option(
            alloc,
            "by",
            "INDEX",
            "With --dump: the index in whose order they are, if not the first",
        ))?
        .arg(flag(
            alloc,
            "csv",
            "With --dump and --import: rows of CSV under the names of the columns",
        ))?
        .arg(flag(
            alloc,
            "upgrade",
            "In place of --listen: take over a folder of an older program, and end",
        ))?
        .arg(option(
            alloc,
            "alter",
            "NEW",
            "In place of --listen: change the tables to those of this schema file, and end",
        ))?
        .arg(option(
            alloc,
            "fill",
            "OBJECT",
            "With --alter: the values of added columns, as an object of JSON under TABLE.COLUMN",
        ))
}

/// The option of the address.
fn listen<'a>(alloc: Global) -> Arg<'a>
    ensures rule { rule_of result ≡ option_named (codes "listen") }
    ensures local { result.global ≡ false }
{
    let help = "Where to listen: unix:PATH or tcp:IP:PORT";
    option(alloc, "listen", "ADDRESS", help)
}

/// The option of the number of threads.
fn workers<'a>(alloc: Global) -> Arg<'a>
    ensures rule { rule_of result ≡ number_named (codes "workers") (codes "16") 1 256 }
    ensures local { result.global ≡ false }
{
    option(
        alloc,
        "workers",
        "NUMBER",
        "Connections that are served at a time, from 1 to 256",
    )
    .value_parser(value_parser!(u32).range(1..=256))
    .default_value("16")
}

/// The option of when logs are synced.
fn sync<'a>(alloc: Global) -> Arg<'a>
    ensures rule { rule_of result ≡ default_named (codes "sync") (codes "each") }
    ensures local { result.global ≡ false }
{
    option(
        alloc,
        "sync",
        "WHEN",
        "When the logs are synced: each (before answers leave), second (once a second) or never",
    )
    .default_value("each")
}

/// The option of the time after which silent connections are closed.
fn idle<'a>(alloc: Global) -> Arg<'a>
    ensures rule { rule_of result ≡ number_named (codes "idle") (codes "0") 0 1000000 }
    ensures local { result.global ≡ false }
{
    option(
        alloc,
        "idle",
        "SECONDS",
        "After how many silent seconds a connection is closed, up to 1000000; 0 for never",
    )
    .value_parser(value_parser!(u32).range(0..=1_000_000))
    .default_value("0")
}

/// A word without a value.
fn flag<'a>(alloc: Global, name: &'a str, help: &'a str) -> Arg<'a>
    ensures rule { rule_of result ≡ flag_named name.entry.now }
    ensures local { result.global ≡ false }
{
    Arg::new(alloc, name)
        .long(name)
        .action(ArgAction::SetTrue)
        .help(help)
}

/// An option with one value, which has to be there.
fn required<'a>(alloc: Global, name: &'a str, value: &'a str, help: &'a str) -> Arg<'a>
    ensures rule { rule_of result ≡ required_named name.entry.now }
    ensures local { result.global ≡ false }
{
    option(alloc, name, value, help).required(true)
}

/// An option with one value.
fn option<'a>(alloc: Global, name: &'a str, value: &'a str, help: &'a str) -> Arg<'a>
    ensures rule { rule_of result ≡ option_named name.entry.now }
    ensures local { result.global ≡ false }
{
    Arg::new(alloc, name)
        .long(name)
        .value_name(value)
        .help(help)
}

/// The fault that stands for an error of `clap`.
pub(crate) fn fault_of(alloc: Global, error: &Error) -> WordsFault
    ensures { SaysWords (kind_of error.now ≢ OutOfMemory) result }
{
    if error.kind() == ErrorKind::OutOfMemory {
        return WordsFault::Memory;
    }
    match format!(in alloc; "{error}") {
        Ok(text) => WordsFault::Words(text),
        Err(_) => WordsFault::Memory,
    }
}
