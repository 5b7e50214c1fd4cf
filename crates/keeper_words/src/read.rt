//! Reading the words of the program.
ghost use Rattle.std.specs.Prelude.{◌≡◌, ◌≤◌, IfOk, IfSome, Some, option_and_then, option_map, ⊤};
ghost use Rattle.clap.specs.Words.{found_of, one_text, rows_of};
ghost use Rattle.program_words.specs.Asked.{SaysWords, number_in, texts};
ghost use Rattle.keeper_words.specs.Asked.{AnswersFor, AreBounded, IsBounded, asked_in, asking_of, choice, given_in, giving_of, is_true, keep, serving_of};

use crate::asked::{Altering, Asked, Dumping, Importing, Keeping, OneTable, Tables, When};
use crate::command::{command, fault_of};
use clap::ArgMatches;
use program_words::{Address, WordsFault};
use std::alloc::Global;

/// Reads the words that follow the program's name. They name an address, `--compact`, `--export`, `--import`, `--dump`, `--upgrade` or `--alter`, and one of these
/// alone.
pub fn read_words<'a>(alloc: Global, words: &'a [String]) -> Result<Asked<'a>, WordsFault>
    ensures answers { AnswersFor (asking_of (texts words.entry.now)) result }
    ensures bounds { IfOk result IsBounded }
{
    match command(alloc)?.try_get_matches_from(words) {
        Ok(matches) => asked_by(alloc, &matches),
        Err(error) => Err(fault_of(alloc, &error)),
    }
}

/// What the matches ask for.
fn asked_by<'a>(alloc: Global, matches: &ArgMatches<'a>) -> Result<Asked<'a>, WordsFault>
    ensures answers { AnswersFor (asked_in (rows_of (found_of matches.now))) result }
    ensures bounds { IfOk result IsBounded }
{
    match given_by(matches) {
        Some(given) => chosen(alloc, &given),
        None => Err(refused(alloc, NO_WHEN)),
    }
}

/// The values of the options.
#[derive(Clone, Copy)]
struct Given<'a> {
    schema: &'a str,
    listen: Option<&'a str>,
    folder: &'a str,
    workers: u32,
    sync: When,
    idle: u32,
    compact: bool,
    export: Option<&'a str>,
    import: Option<&'a str>,
    dump: Option<&'a str>,
    by: Option<&'a str>,
    csv: bool,
    upgrade: bool,
    alter: Option<&'a str>,
    fill: Option<&'a str>,
}

/// Which of the seven the values ask for.
fn chosen<'a>(alloc: Global, given: &Given<'a>) -> Result<Asked<'a>, WordsFault>
    ensures answers { AnswersFor (choice (giving_of given.now)) result }
    ensures bounds { AreBounded given.now → IfOk result IsBounded }
{
    match (
        given.listen,
        given.compact,
        given.export,
        given.import,
        given.dump,
        given.upgrade,
        given.alter,
    ) {
        (Some(listen), false, None, None, None, false, None) => keeping(given, listen),
        (None, true, None, None, None, false, None) => Ok(Asked::Compact(tables(given))),
        (None, false, Some(table), None, None, false, None) => {
            Ok(Asked::Export(one_table(given, table)))
        }
        (None, false, None, Some(table), None, false, None) => {
            Ok(Asked::Import(importing(given, table)))
        }
        (None, false, None, None, Some(table), false, None) => {
            Ok(Asked::Dump(dumping(given, table)))
        }
        (None, false, None, None, None, true, None) => Ok(Asked::Upgrade(tables(given))),
        (None, false, None, None, None, false, Some(new)) => {
            Ok(Asked::Alter(altering(given, new)))
        }
        _ => Err(refused(alloc, NO_CHOICE)),
    }
}

/// The tables of these values.
fn tables<'a>(given: &Given<'a>) -> Tables<'a>
    ensures { (result.schema.now ≡ given.now.schema.now) × (result.folder.now ≡ given.now.folder.now) }
{
    Tables {
        schema: given.schema,
        folder: given.folder,
    }
}

/// The table of these values that has this name.
fn one_table<'a>(given: &Given<'a>, table: &'a str) -> OneTable<'a>
    ensures { (result.schema.now ≡ given.now.schema.now) × (result.folder.now ≡ given.now.folder.now) × (result.table.now ≡ table.now) }
{
    OneTable {
        schema: given.schema,
        folder: given.folder,
        table,
    }
}

/// The same, with what is taken into it.
fn importing<'a>(given: &Given<'a>, table: &'a str) -> Importing<'a>
    ensures table { (result.schema.now ≡ given.now.schema.now) × (result.folder.now ≡ given.now.folder.now) × (result.table.now ≡ table.now) }
    ensures csv { result.csv ≡ given.now.csv }
{
    Importing {
        schema: given.schema,
        folder: given.folder,
        table,
        csv: given.csv,
    }
}

/// The same, with how its records are printed.
fn dumping<'a>(given: &Given<'a>, table: &'a str) -> Dumping<'a>
    ensures table { (result.schema.now ≡ given.now.schema.now) × (result.folder.now ≡ given.now.folder.now) × (result.table.now ≡ table.now) }
    ensures order { option_map (λ t. t.now) result.by ≡ option_map (λ t. t.now) given.now.by }
    ensures csv { result.csv ≡ given.now.csv }
{
    Dumping {
        schema: given.schema,
        folder: given.folder,
        table,
        by: given.by,
        csv: given.csv,
    }
}

/// The tables of these values, which are to be those of this schema file.
fn altering<'a>(given: &Given<'a>, new: &'a str) -> Altering<'a>
    ensures tables { (result.schema.now ≡ given.now.schema.now) × (result.folder.now ≡ given.now.folder.now) }
    ensures change { (result.new.now ≡ new.now) × (option_map (λ t. t.now) result.fill ≡ option_map (λ t. t.now) given.now.fill) }
{
    Altering {
        schema: given.schema,
        folder: given.folder,
        new,
        fill: given.fill,
    }
}

/// Serving at the address of this text.
fn keeping<'a>(given: &Given<'a>, listen: &'a str) -> Result<Asked<'a>, WordsFault>
    ensures answers { AnswersFor (Some (keep (serving_of (giving_of given.now) listen.now))) result }
    ensures bounds { AreBounded given.now → IfOk result IsBounded }
{
    let Some(listen) = Address::read(listen) else {
        return Err(WordsFault::Listen);
    };
    Ok(Asked::Keep(Keeping {
        schema: given.schema,
        listen,
        folder: given.folder,
        workers: given.workers,
        sync: given.sync,
        idle: given.idle,
    }))
}

/// The values of the options, where all that is needed is there.
fn given_by<'a>(options: &ArgMatches<'a>) -> Option<Given<'a>>
    ensures answers { option_map giving_of result ≡ given_in (rows_of (found_of options.now)) }
    ensures bounds { IfSome result AreBounded }
{
    Some(Given {
        schema: options.get_str("schema")?,
        listen: options.get_str("listen"),
        folder: options.get_str("data")?,
        workers: number(options, "workers", 1, 256)?,
        sync: When::read(options.get_str("sync")?)?,
        idle: number(options, "idle", 0, 1_000_000)?,
        compact: is_set(options.get_str("compact")),
        export: options.get_str("export"),
        import: options.get_str("import"),
        dump: options.get_str("dump"),
        by: options.get_str("by"),
        csv: is_set(options.get_str("csv")),
        upgrade: is_set(options.get_str("upgrade")),
        alter: options.get_str("alter"),
        fill: options.get_str("fill"),
    })
}

/// Whether a flag of this text is set.
fn is_set(text: Option<&str>) -> bool
    ensures { result ≡ is_true (option_map (λ t. t.now) text.entry) }
{
    match text {
        Some(text) => text == "true",
        None => false,
    }
}

/// The number of an option, where it lies between these.
fn number(options: &ArgMatches, name: &str, least: u32, most: u32) -> Option<u32>
    ensures number { result ≡ option_and_then (number_in least most) (one_text (found_of options.now) name.now) }
    ensures bounds { IfSome result (λ n. (least ≤ n) × (n ≤ most)) }
{
    let number: u32 = options.get_one(name)?;
    if least <= number && number <= most {
        Some(number)
    } else {
        None
    }
}

/// What is told where the value of `--sync` is none, which `clap` does not refuse itself.
const NO_WHEN: &str = "error: --sync is each, second or never\n";

/// What is told where none of seven words is there, or several.
const NO_CHOICE: &str =
    "error: one of --listen ADDRESS, --compact, --export NAME, --import NAME, --dump NAME, --upgrade and --alter NEW is needed, and no other of them\n";

/// Words that `clap` does not refuse itself, with what is told of them.
fn refused(alloc: Global, text: &str) -> WordsFault
    ensures { SaysWords ⊤ result }
{
    match String::from_str(alloc, text) {
        Ok(text) => WordsFault::Words(text),
        Err(_) => WordsFault::Memory,
    }
}
