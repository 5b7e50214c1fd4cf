//! The texts that `--help` and `--version` show beside the names of the words.

/// The version of the program.
pub(crate) const VERSION: &str = "0.1.0";

/// How the program is called.
pub(crate) const USAGE: &str = "\
table_server run [--schema FILE] [--commands FILE]
       table_server serve --schema FILE --listen unix:PATH|tcp:IP:PORT [--workers 1..16]
                          [--each 1..1000000] [--journal FILE]";

/// What stands at the end of the program's help.
pub(crate) const EXAMPLES: &str = "\
Examples:
  Answer the lines of a file, on the tables of a schema:
    table_server run --schema tables.toml --commands commands.jsonl
  Serve one connection over a Unix socket, and write the accepted writes to a journal:
    table_server serve --schema tables.toml --listen unix:tables.socket --journal journal.jsonl

Without words the program is 'run' without options.
'table_server run --help' and 'table_server serve --help' explain the options.";

/// What stands at the end of the help of `run`.
pub(crate) const RUN_EXAMPLES: &str = "\
Examples:
  Answer the lines of a file, and keep the answers:
    table_server run --schema tables.toml --commands commands.jsonl > answers.jsonl
  Without a schema, ask the table f for its number of records:
    echo '{\"op\":\"size\",\"t\":\"f\"}' | table_server run";

/// What stands at the end of the help of `serve`.
pub(crate) const SERVE_EXAMPLES: &str = "\
Examples:
  Serve one connection over a Unix socket, and write the accepted writes to a journal:
    table_server serve --schema tables.toml --listen unix:tables.socket --journal journal.jsonl
  Serve 100 connections over TCP, 25 by each of 4 threads:
    table_server serve --schema tables.toml --listen tcp:127.0.0.1:7000 --workers 4 --each 25";
