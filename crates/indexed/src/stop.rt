//! What a program without proof does at a wrong call: it says so, and ends. No proved program comes here.
ghost use Rattle.std.specs.Prelude.{IsTrue, not};
ghost use Rattle.container_model.specs.State.{is_hashed_kind};

use crate::kinds::Keyed;
use field_keys::Search;
use multi_index::Kind;
use std::fmt;
use std::fmt::Write;

// The standard stream of errors.
#[derive(Drop)]
struct Errors;

impl fmt::Write for Errors {
    fn write_str(&mut self, s: &str) -> fmt::Result {
        let _ = libc::write(2, s.as_bytes());
        Ok(())
    }
}

/// Where the index can't answer a call, ends the program with the name of the call, and what is wrong.
pub(crate) fn must(is_right: bool, call: &str, number: usize, why: &str)
    requires { IsTrue is_right }
{
    if !is_right {
        let _ = writeln!(Errors, "{call}: index {number} {why}");
        unreachable!()
    }
}

/// That a hashed index is asked for whole keys alone.
pub(crate) fn check_search<K: Keyed>(search: &Search, number: usize, call: &str)
    requires { IsTrue (is_hashed_kind K.kind) → IsTrue (not search.now.leading) }
{
    let is_right = K::kind() != Kind::Hashed || !search.is_leading();
    must(
        is_right,
        call,
        number,
        "is hashed, and is asked for leading parts of a key",
    );
}
