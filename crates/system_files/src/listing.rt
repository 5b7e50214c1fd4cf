//! The names in a folder.

use crate::descriptor::{Descriptor, TO_READ, last_error};
use std::alloc::Global;
use std::io;
use std::io::ErrorKind;

// Puts what is picked of these names, each ended by a byte 0, to the others. One that is no text is none of a table.
fn pick<T: Drop, F: Fn(&str) -> io::Result<Option<T>>>(
    names: &[u8],
    picks: &F,
    picked: &mut Vec<T>,
) -> io::Result<()>
    requires { F.IsAlwaysCallable picks.now }
{
    let mut rest = names;
    for _ in 0..names.len() {
        let (name, behind) = rest.split_at(os::name_length(rest));
        if let Ok(name) = str::from_utf8(name)
            && let Some(it) = picks(name)?
        {
            picked
                .push(it)
                .map_err(|_| io::Error::from(ErrorKind::OutOfMemory))?;
        }
        if behind.is_empty() {
            break;
        }
        let (_, after) = behind.split_at(1);
        rest = after;
    }
    Ok(())
}

/// What is picked of the names in a folder. O(names in the folder).
pub(crate) fn picked<T: Drop, F: Fn(&str) -> io::Result<Option<T>>>(
    alloc: Global,
    folder: &str,
    picks: &F,
) -> io::Result<Vec<T>>
    requires { F.IsAlwaysCallable picks.now }
{
    let mut found = Vec::new(alloc);
    let opened = Descriptor::open(folder, TO_READ)?;
    let mut names = [0u8; 4096];
    for _ in 0..u32::MAX {
        let count = os::read_dir(opened.number(), &mut names);
        if count == 0 {
            break;
        }
        let (front, _) = names.split_at(count);
        pick(front, picks, &mut found)?;
    }
    if os::errno() == 0 {
        Ok(found)
    } else {
        Err(last_error())
    }
}

/// The tables of which the name of a file in a folder ends so. O(names in the folder).
pub(crate) fn tables_in(alloc: Global, folder: &str, end: &str) -> io::Result<Vec<String>> {
    picked(
        alloc,
        folder,
        &|name: &str| match name.strip_suffix(end) {
            Some(table) => Ok(Some(String::from_str(alloc, table)?)),
            None => Ok(None),
        },
    )
}
