//! The columns of a table as its answers show them.

ghost use Rattle.std.specs.Prelude.{◌≡◌, ◌≤◌, IfOk, length};
ghost use Rattle.std.specs.Ordering.{nat_cmp};
ghost use Rattle.std.specs.Cmp.Lexicographic.{slice_cmp};
ghost use Rattle.list_model.specs.Place.{not_above};
ghost use Rattle.table_records.specs.Headings.{headings_of};

use std::alloc::{AllocError, Global};
use table_reply::Heading;
use table_schema::Column;

// How many headings do not come after the name.
fn upper_place(headings: &[Heading], name: &str) -> usize
    ensures place { result ≡ not_above (λ h. slice_cmp nat_cmp h.name name.now) headings.now }
    ensures within { result ≤ length headings.now }
{
    headings
        .iter()
        .filter(|heading| heading.name.as_str().cmp(name).is_le())
        .count()
}

/// The columns with their places in a row, in ascending order of their names. O(columns²).
#[tactic(auto, unfolding(crate::specs::Headings::headings_of))]
pub(crate) fn headings_of(alloc: Global, columns: &[Column]) -> Result<Vec<Heading>, AllocError>
    ensures { IfOk result (λ headings. headings.items ≡ headings_of columns.now) }
{
    let mut headings = Vec::with_capacity(alloc, columns.len())?;
    for (place, column) in columns.iter().enumerate() {
        let name = column.name.copy()?;
        let upper = upper_place(&headings, name.as_str());
        headings.insert(upper, Heading { name, place })?;
    }
    Ok(headings)
}
