//! Hashes of keys.
ghost use Rattle.std.specs.Prelude.{◌≡◌, fold, map};
ghost use Rattle.std.specs.Option.{option_map};
ghost use Rattle.std.specs.Hash.{i64, u64};
ghost use Rattle.std.specs.Hash.FoldHasher as folding;
ghost use Rattle.key_extract.specs.Hashes.{optional_cell_writes, row_hash, probe_hash};
ghost use Rattle.field_keys.specs.Fields.{cell_of, part_of};
ghost use Rattle.field_keys.specs.Values.{value_cell};
ghost use Rattle.field_keys.specs.Sought.{padded};

use crate::field::{Field, Fields};
use crate::part::KeyPart;
use crate::search::{Value, field_at};
use std::hash::{FoldHasher, Hash, Hasher};

// Feeds the low eight bytes of a number; of those below -2^64, which all feed the same, zeros.
#[inline(always)]
fn feed_number(number: i128, state: &mut FoldHasher)
    ensures { state.new ≡ fold folding.write state.old (i64 number) }
{
    if number < 0 {
        let below = u64::try_from(!number).unwrap_or(u64::MAX);
        (u64::MAX - below).hash(state);
    } else {
        feed_unsigned(number.cast_unsigned(), state);
    }
}

fn feed_unsigned(number: u128, state: &mut FoldHasher)
    ensures { state.new ≡ fold folding.write state.old (u64 number) }
{
    match u64::try_from(number) {
        Ok(number) => number.hash(state),
        Err(_) => state.write(&number.to_le_bytes()[..8]),
    }
}

// Feeds a field, or that there is none.
#[inline(always)]
fn feed_optional(field: &Option<Field<'_>>, state: &mut FoldHasher)
    ensures { state.new ≡ fold folding.write state.old (optional_cell_writes (option_map cell_of field.now)) }
{
    let field = match field {
        None => {
            0isize.hash(state);
            return;
        }
        Some(field) => field,
    };
    1isize.hash(state);
    match field {
        Field::Absent => 0isize.hash(state),
        Field::Number(number) => {
            1isize.hash(state);
            feed_number(*number, state);
        }
        Field::Text(text) => {
            2isize.hash(state);
            text.hash(state);
        }
        Field::Truth(truth) => {
            3isize.hash(state);
            truth.hash(state);
        }
    }
}

// The hash of the key of a record.
pub(crate) fn hash_record<R: Fields>(parts: &[KeyPart], row: &R) -> u64
    ensures { result ≡ row_hash (map part_of parts.now) (R.row_of row.now) }
{
    let mut state = FoldHasher::default();
    for part in parts {
        feed_optional(&row.field(part.column()), &mut state);
    }
    state.finish()
}

// The hash of the records whose key has these values.
pub(crate) fn hash_values(parts: &[KeyPart], values: &[Value]) -> u64
    ensures { result ≡ probe_hash (padded (map part_of parts.now) (map value_cell values.now)) }
{
    let mut state = FoldHasher::default();
    for place in 0..parts.len() {
        feed_optional(&Some(field_at(values, place)), &mut state);
    }
    state.finish()
}
