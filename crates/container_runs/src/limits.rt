//! What a container is made for.

/// How many indices and records a container may have, and the number of the last write before its first.
#[derive(Clone, Copy)]
pub(crate) struct Limits {
    pub(crate) most: usize,
    pub(crate) max: u32,
    pub(crate) first_write: u64,
}
