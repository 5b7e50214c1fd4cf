//! Buffers for answers and lines.

use std::alloc::{AllocError, Global};
use table_reply::Out;

/// An empty buffer with room for an answer.
pub fn new_out(alloc: Global) -> Result<Out, AllocError> {
    Out::new(alloc).map_err(|_| AllocError)
}
