//! Reads a schema file.
ghost use Rattle.std.specs.Prelude.{◌≡◌, IfOk, option_map};
ghost use Rattle.toml.specs.View.{table_view};
ghost use Rattle.table_schema.specs.Meaning.{GivesSchema};
ghost use Rattle.schema_file.specs.Meaning.{document_of, schema_of};

use crate::shape::drafts_of;
use std::alloc::{AllocError, Global};
use table_schema::{Schema, SchemaFault, schema_of_drafts};
use toml::Table;

/// Reads a schema file: TOML with one key `table`, an array of tables. A table has a `name`, a `max`
/// (1 to 4294967295, which it is where it is missing), its columns `column` and its indices `index`; a
/// column a `name`, a `cell` (`int`, `text` or `bool`) and `null`, whether its cells may be null (false where it is
/// missing); an index a `name`, a `kind` (`sequenced`,
/// `random`, `ordered`, `ranked` or `hashed`), `unique` (false where it is missing) and a `key` of column
/// names, each with `-` before it for a falling part. Ordered, ranked and hashed indices have a key, and they
/// alone may be unique; a hashed key has no falling part.
///
/// O(length of the bytes) for what `toml` reads; names and keys are compared only within the limits.
#[tactic(auto, unfolding(crate::specs::Meaning::schema_of))]
pub fn read_schema(alloc: Global, bytes: &[u8]) -> Result<Schema, SchemaFault>
    ensures { GivesSchema result (schema_of bytes.now) }
{
    let Some(document) = read_document(alloc, bytes)? else {
        return Err(SchemaFault::Toml);
    };
    let Some(drafts) = drafts_of(alloc, &document)? else {
        return Err(SchemaFault::Shape);
    };
    schema_of_drafts(alloc, &drafts)
}

// The document that the bytes are; none where `toml` refuses them.
fn read_document(alloc: Global, bytes: &[u8]) -> Result<Option<Table>, AllocError>
    ensures { IfOk result (λ document. option_map (λ t. table_view t) document ≡ document_of bytes.now) }
{
    match toml::table_from_slice(alloc, bytes) {
        Ok(document) => Ok(Some(document)),
        Err(e) => if e.is_memory() {
            Err(AllocError)
        } else {
            Ok(None)
        },
    }
}
