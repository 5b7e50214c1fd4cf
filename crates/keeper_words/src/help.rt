//! The texts that `--help` and `--version` show beside the names of the words.

/// The version of the program.
pub(crate) const VERSION: &str = "0.1.0";

/// How the program is called.
pub(crate) const USAGE: &str = "\
table_keeper --schema FILE --listen unix:PATH|tcp:IP:PORT --data FOLDER [--workers 1..256]
                    [--sync each|second|never] [--idle SECONDS]
       table_keeper --schema FILE --data FOLDER --compact
       table_keeper --schema FILE --data FOLDER --export NAME
       table_keeper --schema FILE --data FOLDER --import NAME [--csv]
       table_keeper --schema FILE --data FOLDER --dump NAME [--by INDEX] [--csv]
       table_keeper --schema FILE --data FOLDER --upgrade
       table_keeper --schema FILE --data FOLDER --alter NEW [--fill OBJECT]";

/// What stands at the end of the program's help.
pub(crate) const EXAMPLES: &str = "\
Examples:
  Serve the tables of a schema, and keep them in the folder 'data':
    table_keeper --schema tables.toml --listen unix:tables.socket --data data
  Serve up to 64 connections at a time, sync once a second, and close connections that are silent for 10 minutes:
    table_keeper --schema tables.toml --listen tcp:127.0.0.1:7000 --data data --workers 64 --sync second --idle 600
  While it is stopped, write the state of each table in place of its log:
    table_keeper --schema tables.toml --data data --compact
  Print the writes of a table's log, and take them into an empty table of another folder:
    table_keeper --schema tables.toml --data data --export people > people.jsonl
    table_keeper --schema tables.toml --data other --import people < people.jsonl
  Print the records of a table in the order of an index as CSV, and take such rows into an empty table:
    table_keeper --schema tables.toml --data data --dump people --by by_name --csv > people.csv
    table_keeper --schema tables.toml --data other --import people --csv < people.csv
  Take over a folder of an older table_keeper:
    table_keeper --schema tables.toml --data data --upgrade
  Change the kept tables to those of another schema, where each town that was there gets the size 0:
    table_keeper --schema tables.toml --data data --alter wider.toml --fill '{\"towns.size\":0}'

It serves until it is ended by a signal. Every signal will do. The same words start it again with what was answered.
With another of the seven words in place of --listen it ends by itself. The other options are the same then, and no more than read.";
