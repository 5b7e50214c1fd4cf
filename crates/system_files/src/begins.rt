//! Where the logs of a table begin that are in a folder.

ghost use Rattle.std.specs.Prelude.{◌≡◌, IfSome, decimal};
ghost use Rattle.system_files.specs.Names.{log_name};

use crate::listing::picked;
use itoa::Buffer;
use std::alloc::Global;
use std::io;

// Where a log of this name begins, if it is one of the table.
fn begin_in(name: &str, table: &str, end: &str) -> Option<Option<u64>>
    ensures { IfSome result (λ begin. name.now ≡ log_name table.now begin end.now) }
{
    let rest = name.strip_prefix(table)?;
    if rest == end {
        return Some(None);
    }
    let digits = rest.strip_prefix(".")?.strip_suffix(end)?;
    Some(Some(number_in(digits)?))
}

// The number of these digits, where they are written as the program writes them.
fn number_in(digits: &str) -> Option<u64>
    ensures { IfSome result (λ number. digits.now ≡ decimal number) }
{
    let number = digits.parse::<u64>().ok()?;
    let mut buffer = Buffer::new();
    if buffer.format(number) == digits {
        Some(number)
    } else {
        None
    }
}

/// Where the logs of a table begin whose names end so: behind the states of these numbers, or with the empty table. O(names in the folder).
pub(crate) fn begins_in(
    alloc: Global,
    folder: &str,
    table: &str,
    end: &str,
) -> io::Result<Vec<Option<u64>>> {
    picked(alloc, folder, &|name: &str| Ok(begin_in(name, table, end)))
}
