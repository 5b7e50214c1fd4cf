//! Where two sessions meet.

use crate::flag::Flag;

/// What two sessions tell each other.
#[derive(Drop)]
pub struct Meeting {
    /// A session is inside the gate that holds it.
    pub inside: Flag,
    /// The other one is about to call.
    pub coming: Flag,
    /// The other one is inside the gate, or was answered.
    pub answered: Flag,
    /// The other one was so while the first was held.
    pub met: Flag,
    /// A wait met its limit.
    late: Flag,
}

impl Meeting {
    /// Nothing has happened.
    pub fn new() -> Meeting {
        Meeting {
            inside: Flag::new(),
            coming: Flag::new(),
            answered: Flag::new(),
            met: Flag::new(),
            late: Flag::new(),
        }
    }

    /// Waits for one of the flags. A limit that is met is kept.
    pub fn wait_for(&self, flag: &Flag) {
        if !flag.is_raised_in_time() {
            self.late.raise();
        }
    }

    /// Whether each wait ended before its limit.
    pub fn is_in_time(&self) -> bool {
        !self.late.is_raised()
    }
}
