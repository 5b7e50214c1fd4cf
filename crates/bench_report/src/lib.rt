//! What the programs that print times share: the memory of the process, and words in no visible order.
#![tactic(auto)]

mod memory;
mod words;

pub use memory::resident;
pub use words::scattered;
