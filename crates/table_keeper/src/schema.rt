//! The schema, and a table of it.

use crate::fault::Fault;
use schema_file::read_schema;
use std::fs;
use table_schema::{Schema, TableSpec};

/// The schema of a file.
pub(crate) fn schema_of(rt: &HostRuntime, path: &str) -> Result<Schema, Fault> {
    match fs::read(rt, path) {
        Ok(bytes) => Ok(read_schema(rt.alloc(), &bytes)?),
        Err(error) => Err(Fault::of_file(&error, String::from_str(rt.alloc(), path)?)),
    }
}

/// The table of this name.
pub(crate) fn table_named<'a>(
    rt: &HostRuntime,
    schema: &'a Schema,
    name: &str,
) -> Result<&'a TableSpec, Fault> {
    for table in schema.tables() {
        if table.name() == name {
            return Ok(table);
        }
    }
    Err(Fault::Words(format!(in rt.alloc(); "error: the schema has no table '{name}'\n")?))
}
