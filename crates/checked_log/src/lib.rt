//! A log that checks itself: lines with digests, which of them are whole, and what a start makes of them.
#![tactic(auto)]

mod digest;
mod fields;
mod hex_digits;
mod law;
mod line;
mod mark;
mod put;
mod recovery;
mod signed;
#[cfg(test)]
mod tests;
mod walk;
mod write;

pub use digest::{Digesting, changed_word_is_found, digest_of};
pub use law::{
    changed_line_is_found, line_is_read_back, line_is_well_formed, recovery_again, recovery_keeps,
    recovery_opens, serving_keeps, texts_are_json, walk_is_recovery,
};
pub use line::{Line, read_line};
pub use mark::{MARK_BYTES, Marks, push_mark, read_marks};
pub use recovery::{Behind, Link, Recovered, Refusal, recover};
pub use walk::Walk;
pub use write::push_line;
