//! Ops in groups, each of which is few enough for one match.

// What is given for the command's group.
macro_rules! by_group {
    ($command:expr; $row_change:expr, $sequence_change:expr, $index_change:expr, $keyed:expr, $read:expr) => {
        match $command {
            Command::Insert { .. }
            | Command::Replace { .. }
            | Command::Modify { .. }
            | Command::ModifyKey { .. }
            | Command::Erase { .. } => $row_change,
            Command::Clear { .. }
            | Command::Move { .. }
            | Command::Rearrange { .. }
            | Command::Reverse { .. }
            | Command::Sort { .. } => $sequence_change,
            Command::AddIndex { .. } | Command::DropIndex { .. } => $index_change,
            Command::EraseKey { .. }
            | Command::Find { .. }
            | Command::Count { .. }
            | Command::Lower { .. }
            | Command::Upper { .. }
            | Command::FindRank { .. }
            | Command::LowerRank { .. }
            | Command::UpperRank { .. } => $keyed,
            Command::Get { .. }
            | Command::Size { .. }
            | Command::Range { .. }
            | Command::Nth { .. }
            | Command::Rank { .. }
            | Command::Place { .. }
            | Command::Next { .. }
            | Command::Prev { .. }
            | Command::List { .. } => $read,
        }
    };
}

pub(crate) use by_group;
