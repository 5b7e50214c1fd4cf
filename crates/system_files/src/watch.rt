//! Who is told how far files are read.

use crate::clock::{is_second_since, now};

/// Who is told how far files are read.
pub trait Watch: Copy + Drop {
    /// The file at this path, which had so many bytes when it was opened, is read from a place on.
    fn reads(&self, path: &str, at: u64, size: u64);
}

/// Nobody.
impl Watch for () {
    fn reads(&self, _path: &str, _at: u64, _size: u64) {}
}

/// What is told of a file that is read, once a second.
#[derive(Drop)]
pub(crate) struct Reading<W: Watch> {
    watch: W,
    path: String,
    size: u64,
    // When it was told last, or opened.
    told: Option<i64>,
}

impl<W: Watch> Reading<W> {
    /// The file at a path is opened, and has so many bytes.
    pub(crate) fn new(watch: W, path: String, size: u64) -> Reading<W> {
        Reading {
            watch,
            path,
            size,
            told: now(),
        }
    }

    /// The file is read from a place on.
    pub(crate) fn reads(&mut self, at: u64) {
        if is_second_since(self.told) == Some(true) {
            self.told = now();
            self.watch.reads(self.path.as_str(), at, self.size);
        }
    }
}
