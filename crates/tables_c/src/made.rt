//! The container of one table.

ghost use Rattle.schema_file.specs.Meaning.{schema_of};
ghost use Rattle.tables_c.specs.Rows.{OrMemory, table_meant};

use crate::status::{MEMORY, TABLE, number_of};
use schema_file::read_schema;
use std::alloc::Global;
use table_records::Records;

/// No records, of the table of a number in a schema file.
pub(crate) fn records_of(alloc: Global, schema: &[u8], table: usize) -> Result<Records, u8>
    ensures { OrMemory result (table_meant (schema_of schema.now) table) }
{
    let schema = match read_schema(alloc, schema) {
        Ok(schema) => schema,
        Err(fault) => return Err(number_of(fault)),
    };
    if table >= schema.tables().len() {
        return Err(TABLE);
    }
    match Records::new(alloc, &schema.tables()[table]) {
        Ok(records) => Ok(records),
        Err(_) => Err(MEMORY),
    }
}
