//! Memory of the process.
ghost use Rattle.std.specs.Prelude.{◌≡◌, ◌%◌, IfOk};

use std::rt::Runtime;
use std::{fs, io};

/// The bytes of the process that are in memory, as Linux counts them in pages of 4096 bytes, or 0 where it does not tell
/// them.
pub fn resident<R: Runtime>(rt: &R) -> io::Result<u64>
    ensures { IfOk result (λ bytes. bytes % 4096 ≡ 0) }
{
    let text = fs::read_to_string(rt, "/proc/self/statm")?;
    let pages = text
        .split_whitespace()
        .nth(1)
        .and_then(|word| word.parse::<u64>().ok());
    Ok(pages.and_then(|pages| pages.checked_mul(4096)).unwrap_or(0))
}
