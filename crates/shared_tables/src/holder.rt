//! Who has the pass of a session.

use crate::pass::Pass;

/// The pass of a session, where it has one alone.
#[derive(Clone, Copy)]
pub(crate) enum Holder<'a> {
    Nobody,
    One(&'a Pass),
    Several,
}
