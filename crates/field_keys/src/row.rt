//! The fields of a row.
ghost use Rattle.std.specs.Prelude.{◌≡◌};
ghost use Rattle.field_keys.specs.Fields.{cell_of};
ghost use Rattle.field_keys.specs.Row as row;

use crate::field::Field;

/// The field of a number without a sign. O(1).
#[inline(always)]
pub fn unsigned<'a>(number: u64) -> Field<'a>
    ensures { cell_of result ≡ row.unsigned number }
{
    Field::Number(number.into())
}

/// The field of a number with a sign. O(1).
#[inline(always)]
pub fn signed<'a>(number: i128) -> Field<'a>
    ensures { cell_of result ≡ row.signed number }
{
    Field::Number(number)
}

/// The field of a text. O(1).
#[inline(always)]
pub fn text(text: &str) -> Field<'_>
    ensures { cell_of result ≡ row.text text.now }
{
    Field::Text(text)
}

/// The field of a truth value. O(1).
#[inline(always)]
pub fn truth<'a>(truth: bool) -> Field<'a>
    ensures { cell_of result ≡ row.truth truth }
{
    Field::Truth(truth)
}
