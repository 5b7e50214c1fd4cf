//! The time.

use libc::types::timespec;

/// The milliseconds of a clock that does not go back, where they can be told.
pub(crate) fn now() -> Option<i64> {
    let mut time = timespec {
        tv_sec: 0,
        tv_nsec: 0,
    };
    if libc::clock_gettime(libc::CLOCK_MONOTONIC, &mut time) != 0 {
        return None;
    }
    let seconds = time.tv_sec.saturating_mul(1000);
    Some(seconds.saturating_add(time.tv_nsec / 1_000_000))
}

/// Whether a second has passed since a time, where that can be told.
pub(crate) fn is_second_since(then: Option<i64>) -> Option<bool> {
    Some(now()?.saturating_sub(then?) >= 1000)
}
