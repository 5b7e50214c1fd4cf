//! The answers to the words of the program.
ghost use Rattle.std.specs.Prelude.{◌≡◌};
ghost use Rattle.keeper_words.specs.Asked.{when_named};

use program_words::Address;

/// When the logs are synced.
#[derive(Clone, Copy, Debug, PartialEq, Eq)]
pub enum When {
    /// Before what rests on them is answered.
    Each,
    /// Once a second.
    Second,
    /// When the system does it.
    Never,
}

impl When {
    /// Reads `each`, `second` or `never`.
    pub fn read(text: &str) -> Option<When>
        ensures { result ≡ when_named text.now }
    {
        match text {
            "each" => Some(When::Each),
            "second" => Some(When::Second),
            "never" => Some(When::Never),
            _ => None,
        }
    }
}

/// What the program is asked to do.
#[derive(Clone, Copy, Debug, PartialEq, Eq)]
pub enum Asked<'a> {
    /// Serve the tables, and keep them.
    Keep(Keeping<'a>),
    /// Write the tables' states, with an empty log behind each.
    Compact(Tables<'a>),
    /// Print the writes of a table's log.
    Export(OneTable<'a>),
    /// Take a journal or rows into the log of an empty table.
    Import(Importing<'a>),
    /// Print the records of a table.
    Dump(Dumping<'a>),
    /// Take over a folder of an older program.
    Upgrade(Tables<'a>),
    /// Change the tables to those of another schema.
    Alter(Altering<'a>),
}

/// Tables that are served and kept.
#[derive(Clone, Copy, Debug, PartialEq, Eq)]
pub struct Keeping<'a> {
    /// The file of the schema.
    pub schema: &'a str,
    /// Where connections come in.
    pub listen: Address<'a>,
    /// The folder of the logs.
    pub folder: &'a str,
    /// How many threads serve connections, from 1 to 256.
    pub workers: u32,
    /// When the logs are synced.
    pub sync: When,
    /// After how many seconds a connection is closed that sends nothing, up to 1,000,000; 0 for never.
    pub idle: u32,
}

/// The tables of a folder.
#[derive(Clone, Copy, Debug, PartialEq, Eq)]
pub struct Tables<'a> {
    /// The file of the schema.
    pub schema: &'a str,
    /// The folder of the logs.
    pub folder: &'a str,
}

/// The tables of a folder, and those that they are to be.
#[derive(Clone, Copy, Debug, PartialEq, Eq)]
pub struct Altering<'a> {
    /// The file of the schema that the folder has.
    pub schema: &'a str,
    /// The folder of the logs.
    pub folder: &'a str,
    /// The file of the new schema.
    pub new: &'a str,
    /// The values of columns that are added, as an object of JSON.
    pub fill: Option<&'a str>,
}

/// One table of a folder, and what is taken into it.
#[derive(Clone, Copy, Debug, PartialEq, Eq)]
pub struct Importing<'a> {
    /// The file of the schema.
    pub schema: &'a str,
    /// The folder of the logs.
    pub folder: &'a str,
    /// The table's name.
    pub table: &'a str,
    /// Whether it is rows of CSV.
    pub csv: bool,
}

/// One table of a folder, and how its records are printed.
#[derive(Clone, Copy, Debug, PartialEq, Eq)]
pub struct Dumping<'a> {
    /// The file of the schema.
    pub schema: &'a str,
    /// The folder of the logs.
    pub folder: &'a str,
    /// The table's name.
    pub table: &'a str,
    /// The name of the index in whose order they are, the first if not said.
    pub by: Option<&'a str>,
    /// Whether they are rows of CSV.
    pub csv: bool,
}

/// One table of a folder.
#[derive(Clone, Copy, Debug, PartialEq, Eq)]
pub struct OneTable<'a> {
    /// The file of the schema.
    pub schema: &'a str,
    /// The folder of the logs.
    pub folder: &'a str,
    /// The table's name.
    pub table: &'a str,
}
