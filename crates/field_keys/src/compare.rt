//! How records and searches compare, field by field.
ghost use Rattle.std.specs.Prelude.{◌≡◌, map, take};
ghost use Rattle.std.specs.Option.{option_map};
ghost use Rattle.key_extract.specs.Cells.{cell_cmp, optional_cell_cmp};
ghost use Rattle.key_extract.specs.Keys.{directed, part_cmp, key_cmp, probe_cmp};
ghost use Rattle.field_keys.specs.Fields.{cell_of, part_of};
ghost use Rattle.field_keys.specs.Values.{value_cell, value_side};
ghost use Rattle.field_keys.specs.Sought.{padded, sought};

use crate::field::{Field, Fields};
use crate::part::KeyPart;
use crate::search::{Search, Value, field_at};
use std::cmp::Ordering;

// How two fields compare.
#[inline(always)]
fn compare_fields(a: &Field<'_>, b: &Field<'_>) -> Ordering
    ensures { result ≡ cell_cmp (cell_of a.now) (cell_of b.now) }
{
    match (a, b) {
        (Field::Absent, Field::Absent) => Ordering::Equal,
        (Field::Number(a), Field::Number(b)) => a.cmp(b),
        (Field::Text(a), Field::Text(b)) => a.cmp(b),
        (Field::Truth(a), Field::Truth(b)) => a.cmp(b),
        (Field::Absent, _) => Ordering::Less,
        (_, Field::Absent) => Ordering::Greater,
        (Field::Number(_), _) | (Field::Text(_), Field::Truth(_)) => Ordering::Less,
        (Field::Text(_), Field::Number(_)) | (Field::Truth(_), _) => Ordering::Greater,
    }
}

// A column that a record lacks comes before all fields.
#[inline(always)]
fn compare_optional(a: &Option<Field<'_>>, b: &Option<Field<'_>>) -> Ordering
    ensures { result ≡ optional_cell_cmp (option_map cell_of a.now) (option_map cell_of b.now) }
{
    match (a, b) {
        (None, None) => Ordering::Equal,
        (None, Some(_)) => Ordering::Less,
        (Some(_), None) => Ordering::Greater,
        (Some(a), Some(b)) => compare_fields(a, b),
    }
}

// How a part orders two fields that compare so.
fn directed_order(part: KeyPart, order: Ordering) -> Ordering
    ensures { result ≡ directed (part_of part) order }
{
    match part {
        KeyPart::Rising(_) => order,
        KeyPart::Falling(_) => order.reverse(),
    }
}

#[inline(always)]
fn compare_part<R: Fields>(part: KeyPart, a: &R, b: &R) -> Ordering
    ensures { result ≡ part_cmp (part_of part) (R.row_of a.now) (R.row_of b.now) }
{
    let column = part.column();
    directed_order(part, compare_optional(&a.field(column), &b.field(column)))
}

// How the key of a stands to that of b.
pub(crate) fn compare_records<R: Fields>(parts: &[KeyPart], a: &R, b: &R) -> Ordering
    ensures { result ≡ key_cmp (map part_of parts.now) (R.row_of a.now) (R.row_of b.now) }
{
    for part in parts {
        match compare_part(*part, a, b) {
            Ordering::Equal => {}
            order => return order,
        }
    }
    Ordering::Equal
}

#[inline(always)]
fn compare_value<R: Fields>(part: KeyPart, a: &R, value: Field<'_>) -> Ordering
    ensures { result ≡ value_side (part_of part) (R.row_of a.now) (cell_of value.entry) }
{
    directed_order(
        part,
        compare_optional(&a.field(part.column()), &Some(value)),
    )
}

// How the key of a stands to these values, one for each part.
fn compare_values<R: Fields>(parts: &[KeyPart], a: &R, values: &[Value]) -> Ordering
    ensures { result ≡ probe_cmp (map part_of parts.now) (R.row_of a.now) (padded (map part_of parts.now) (map value_cell values.now)) }
{
    for place in 0..parts.len() {
        match compare_value(parts[place], a, field_at(values, place)) {
            Ordering::Equal => {}
            order => return order,
        }
    }
    Ordering::Equal
}

// The first of the parts, or all.
fn first_parts(parts: &[KeyPart], count: usize) -> &[KeyPart]
    ensures { result.now ≡ take count parts.now }
{
    if count < parts.len() {
        &parts[..count]
    } else {
        parts
    }
}

// How the key of a stands to the values of a search.
pub(crate) fn compare_search<R: Fields>(parts: &[KeyPart], a: &R, search: &Search) -> Ordering
    ensures { result ≡ probe_cmp (map part_of parts.now) (R.row_of a.now) (sought (map part_of parts.now) search.now) }
{
    let values = search.values();
    if search.is_leading() {
        compare_values(first_parts(parts, values.len()), a, values)
    } else {
        compare_values(parts, a, values)
    }
}
