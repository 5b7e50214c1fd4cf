//! Whether two tables are declared alike.

ghost use Rattle.std.specs.Prelude.{◌≡◌, ◌↔◌, IsTrue};
ghost use Rattle.std.specs.Option.{option_copied};

use key_extract::{KeySpec, Part};
use table_schema::{Column, IndexSpec, TableSpec};

/// Whether the declarations are the same, places included. O(columns + indices).
pub(crate) fn is_same_table(a: &TableSpec, b: &TableSpec) -> bool
    ensures { IsTrue result ↔ (a.now ≡ b.now) }
{
    has_same_numbers(a, b) && a.name() == b.name() && has_same_parts(a, b)
}

fn has_same_numbers(a: &TableSpec, b: &TableSpec) -> bool
    ensures { IsTrue result ↔ ((a.now.place ≡ b.now.place) × (a.now.tables ≡ b.now.tables) × (a.now.max ≡ b.now.max)) }
{
    a.place() == b.place() && a.tables() == b.tables() && a.max() == b.max()
}

fn has_same_parts(a: &TableSpec, b: &TableSpec) -> bool
    ensures { IsTrue result ↔ ((a.now.columns ≡ b.now.columns) × (a.now.indices ≡ b.now.indices)) }
{
    are_same(a.columns(), b.columns()) && are_same(a.indices(), b.indices())
}

// What tables are declared with.
trait Declared {
    // Whether the other is declared alike.
    fn is_same(&self, other: &Self) -> bool
        ensures { IsTrue result ↔ (self.now ≡ other.now) };
}

fn are_same<T: Declared>(a: &[T], b: &[T]) -> bool
    ensures { IsTrue result ↔ (a.now ≡ b.now) }
{
    if a.len() != b.len() {
        return false;
    }
    for (place, declared) in a.iter().enumerate() {
        if !declared.is_same(&b[place]) {
            return false;
        }
    }
    true
}

impl Declared for Column {
    fn is_same(&self, other: &Column) -> bool {
        self.cell == other.cell
            && self.null == other.null
            && self.name.as_str() == other.name.as_str()
    }
}

impl Declared for IndexSpec {
    fn is_same(&self, other: &IndexSpec) -> bool {
        self.kind == other.kind
            && self.unique == other.unique
            && self.name.as_str() == other.name.as_str()
            && is_same_key(self.key.as_ref(), other.key.as_ref())
    }
}

impl Declared for Part {
    fn is_same(&self, other: &Part) -> bool {
        self == other
    }
}

fn is_same_key(a: Option<&KeySpec>, b: Option<&KeySpec>) -> bool
    ensures { IsTrue result ↔ (option_copied a.entry ≡ option_copied b.entry) }
{
    match (a, b) {
        (Some(a), Some(b)) => are_same(a.parts(), b.parts()),
        (None, None) => true,
        _ => false,
    }
}
