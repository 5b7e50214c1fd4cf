//! The program over its words, files and streams.
ghost use Rattle.std.specs.Prelude.{◌≡◌, ◌≢◌, ◌≤◌, ◌⊎◌, Some, None, IfErr, IfOk, IsErrAnd, OnOk, List, ℕ, option_map};
ghost use Rattle.table_engine.specs.Devices.{raised};
ghost use Rattle.program_words.specs.Asked.{asking_of, files, texts};
ghost use Rattle.table_server.specs.Asking.{AsksNothing, AsksService, DoesAsked, EndsAsked, LeavesInput, NamesSchema, OnlyAnnounces};
ghost use Rattle.table_server.specs.Done.{AreOfFile, Done, EndsInput, IsSchema, ReadsAll, Serves, ServesLines};
ghost use Rattle.table_server.specs.Fault.{Tells, status_after, status_of};
ghost use Rattle.table_server.specs.Keeping.{Outcome};

use crate::fault::Fault;
use crate::opens::{Listens, Makes, Opens};
use crate::serve::{Serving, serve_connections};
use program_words::{Asked, read_words};
use schema_file::read_schema;
use std::alloc::Global;
use std::env;
use std::env::Env;
use std::io::{ErrorKind, Read, Write};
use std::sync::Wait;
use std::thread::Threads;
use table_engine::{Engine, Sink, Source, serve_stream};
use table_schema::{Schema, builtin};

/// The words that follow the program's name.
pub fn given_words<R: Env + AllocGlobal>(rt: &R) -> Result<Vec<String>, Fault>
    ensures { IfErr result (λ fault. (status_of fault ≡ 2) ⊎ (fault ≡ Fault.Memory)) }
{
    match env::args(rt) {
        Ok(all) => Ok(all.skip(1).collect(rt.alloc())?),
        Err(error) if error.kind() == ErrorKind::OutOfMemory => Err(Fault::Memory),
        Err(_) => Err(Fault::Words(String::from_str(rt.alloc(), "error: a word is not UTF-8\n")?)),
    }
}

/// Does what the words ask for, and gives the exit status: 0 done, 1 device or memory, 2 words or
/// address, 3 schema, 4 what a session was told and a journal do not fit. The text of a fault goes to
/// `faults`, with a newline. Words, schema, file of lines and lines come in this order, or words,
/// address, schema, the journal's path and connections, and the first fault ends it; of those of
/// connections that are served the one of the greatest status.
pub fn main_with<
    R: AllocGlobal + Opens + Listens + Threads + Wait + Sync,
    M: Makes,
    I: Read,
    O: Write,
    E: Write,
>(
    rt: &R,
    files: &mut M,
    words: &[String],
    input: &mut Source<I>,
    output: &mut Sink<O>,
    faults: &mut Sink<E>,
) -> u8
    ensures done { result ≡ 0 → DoesAsked (R.is_at rt.now) R.Opened.remaining M.known M.Made.contents (R.is_listening rt.now) R.Listener.known (asking_of (texts words.now)) files.old files.new
        (I.remaining input.old.inner) (I.remaining input.new.inner) (O.contents output.old.inner) (O.contents output.new.inner) }
    ensures ends { (outcome : Outcome) × (result ≡ status_after outcome) × EndsAsked (R.is_at rt.now) R.Opened.remaining M.known M.Made.contents (R.is_listening rt.now) R.Listener.known O.contents (asking_of (texts words.now)) files.old files.new output.old output.new outcome
        × Tells E.contents faults.old faults.new outcome }
    ensures input { result ≡ 0 → LeavesInput (asking_of (texts words.now)) input.old input.new }
    ensures words { result ≡ 2 → AsksNothing (asking_of (texts words.now)) }
    ensures wrong_words { AsksNothing (asking_of (texts words.now)) → (result ≡ 2) ⊎ (result ≡ 1) }
    ensures untouched { AsksNothing (asking_of (texts words.now)) → (input.new ≡ input.old) × (output.new ≡ output.old) × (files.new ≡ files.old) }
    ensures announces { OnlyAnnounces (asking_of (texts words.now)) input.old input.new (O.contents output.old.inner) (O.contents output.new.inner) }
    ensures schema { result ≡ 3 → NamesSchema (asking_of (texts words.now)) }
    ensures mismatch { result ≡ 4 → AsksService (asking_of (texts words.now)) }
    ensures status { result ≤ 4 }
{
    match run(rt, files, words, input, output) {
        Ok(()) => 0,
        Err(fault) => fault.report(faults),
    }
}

/// Does what the words ask for.
fn run<R: AllocGlobal + Opens + Listens + Threads + Wait + Sync, M: Makes, I: Read, O: Write>(
    rt: &R,
    files: &mut M,
    words: &[String],
    input: &mut Source<I>,
    output: &mut Sink<O>,
) -> Result<(), Fault>
    ensures done { OnOk result (DoesAsked (R.is_at rt.now) R.Opened.remaining M.known M.Made.contents (R.is_listening rt.now) R.Listener.known (asking_of (texts words.now)) files.old files.new
        (I.remaining input.old.inner) (I.remaining input.new.inner) (O.contents output.old.inner) (O.contents output.new.inner)) }
    ensures ends { EndsAsked (R.is_at rt.now) R.Opened.remaining M.known M.Made.contents (R.is_listening rt.now) R.Listener.known O.contents (asking_of (texts words.now)) files.old files.new output.old output.new result }
    ensures input { OnOk result (LeavesInput (asking_of (texts words.now)) input.old input.new) }
    ensures words { IfErr result (λ fault. status_of fault ≡ 2 → AsksNothing (asking_of (texts words.now))) }
    ensures wrong_words { AsksNothing (asking_of (texts words.now))
        → IsErrAnd result (λ fault. (status_of fault ≡ 2) ⊎ (fault ≡ Fault.Memory)) }
    ensures untouched { AsksNothing (asking_of (texts words.now)) → (input.new ≡ input.old) × (output.new ≡ output.old) × (files.new ≡ files.old) }
    ensures announces { OnlyAnnounces (asking_of (texts words.now)) input.old input.new (O.contents output.old.inner) (O.contents output.new.inner) }
    ensures schema { IfErr result (λ fault. status_of fault ≡ 3 → NamesSchema (asking_of (texts words.now))) }
    ensures mismatch { IfErr result (λ fault. status_of fault ≡ 4 → AsksService (asking_of (texts words.now))) }
{
    let asked = read_words(rt.alloc(), words)?;
    match asked {
        Asked::Run { schema, commands } => run_lines(rt, schema, commands, input, output),
        Asked::Serve {
            schema,
            listen,
            workers,
            each,
            journal,
        } => serve_connections(
            rt,
            files,
            &Serving {
                schema,
                listen,
                workers,
                each,
                journal,
            },
            output,
        ),
    }
}

/// Answers the lines of a file, or else of the input, by the schema of a file, or the built-in one.
fn run_lines<R: AllocGlobal + Opens, I: Read, O: Write>(
    rt: &R,
    schema: Option<&str>,
    commands: Option<&str>,
    input: &mut Source<I>,
    output: &mut Sink<O>,
) -> Result<(), Fault>
    ensures done { OnOk result (Done (R.is_at rt.now) R.Opened.remaining (files schema.entry commands.entry) (I.remaining input.old.inner) (I.remaining input.new.inner) (O.contents output.old.inner) (O.contents output.new.inner)) }
    ensures end { OnOk result (EndsInput (files schema.entry commands.entry).commands input.old input.new) }
    ensures fault { IfErr result (λ fault. (status_of fault ≡ 1) ⊎ ((status_of fault ≡ 3) × (schema.entry ≢ None))) }
{
    let schema = schema_of(rt, schema)?;
    serve_lines(rt, commands, &schema, input, output)
}

/// The schema of a file, or the built-in one.
pub(crate) fn schema_of<R: AllocGlobal + Opens>(rt: &R, path: Option<&str>) -> Result<Schema, Fault>
    ensures schema { IfOk result (λ schema. IsSchema (R.is_at rt.now) R.Opened.remaining (option_map (λ s. s.now) path.entry) schema) }
    ensures fault { IfErr result (λ fault. (status_of fault ≡ 1) ⊎ ((status_of fault ≡ 3) × (path.entry ≢ None))) }
{
    match path {
        None => Ok(builtin(rt.alloc())?),
        Some(path) => {
            let bytes = bytes_of(rt, path)?;
            Ok(read_schema(rt.alloc(), &bytes)?)
        }
    }
}

/// All bytes of a file.
fn bytes_of<R: AllocGlobal + Opens>(rt: &R, path: &str) -> Result<Vec<u8>, Fault>
    ensures read { IfOk result (λ bytes. AreOfFile (R.is_at rt.now) R.Opened.remaining path.now bytes.items) }
    ensures fault { IfErr result (λ fault. status_of fault ≡ 1) }
{
    let mut file = rt.open(path)?;
    let mut bytes = Vec::new(rt.alloc());
    file.read_to_end(&mut bytes)?;
    Ok(bytes)
}

/// Answers the lines of a file, or else of the input, on empty tables.
fn serve_lines<R: AllocGlobal + Opens, I: Read, O: Write>(
    rt: &R,
    path: Option<&str>,
    schema: &Schema,
    input: &mut Source<I>,
    output: &mut Sink<O>,
) -> Result<(), Fault>
    ensures served { OnOk result (ServesLines (R.is_at rt.now) R.Opened.remaining (option_map (λ s. s.now) path.entry) schema.now (I.remaining input.old.inner) (I.remaining input.new.inner) (O.contents output.old.inner) (O.contents output.new.inner)) }
    ensures end { OnOk result (EndsInput (option_map (λ s. s.now) path.entry) input.old input.new) }
    ensures fault { IfErr result (λ fault. status_of fault ≡ 1) }
{
    match path {
        None => serve(rt.alloc(), schema, input, output),
        Some(path) => {
            let mut file = Source::new(rt.open(path)?);
            serve(rt.alloc(), schema, &mut file, output)
        }
    }
}

/// Answers the lines of a reader on empty tables.
fn serve<I: Read, O: Write>(
    alloc: Global,
    schema: &Schema,
    input: &mut Source<I>,
    output: &mut Sink<O>,
) -> Result<(), Fault>
    ensures served { OnOk result ((bytes : List ℕ) × ReadsAll (I.remaining input.old.inner) (I.remaining input.new.inner) bytes
        × Serves schema.now bytes (O.contents output.old.inner) (O.contents output.new.inner)) }
    ensures end { OnOk result (input.new.ends ≡ raised input.old.ends) }
    ensures fault { IfErr result (λ fault. status_of fault ≡ 1) }
{
    let mut engine = Engine::new(alloc, schema, 1)?;
    Ok(serve_stream(alloc, &mut engine, 0, input, output)?)
}
