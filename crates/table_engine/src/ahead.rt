//! Memory that the system gives in one piece.

use crate::stream::PIECE;
use std::alloc::{AllocError, Global};

/// More than what the lines of a piece mostly keep.
const AHEAD: usize = 256 * 1024;

/// Where a whole piece was read, takes memory and gives it back at once, if it is there. The allocator then has it at hand for
/// this thread. Otherwise it asks the system for each page that a table grows by, and each time all threads wait that ask or
/// meet a new page. O(1).
pub(crate) fn grow_ahead(alloc: Global, read: usize) {
    if read == PIECE {
        let _ahead: Result<Vec<u8>, AllocError> = Vec::with_capacity(alloc, AHEAD);
    }
}
