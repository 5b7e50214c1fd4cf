//! The files of tables in a folder, by calls of the system alone: for a library that no runtime is given to.
#![tactic(auto)]

mod begins;
mod clock;
mod descriptor;
mod file;
mod folder;
mod listing;
mod log;
mod mark;
mod names;
mod table_files;
mod turns;
mod watch;

pub use file::SystemFile;
pub use folder::{SystemFolder, TakeFault};
pub use log::SystemLog;
pub use table_files::TableFiles;
pub use turns::Waiter;
pub use watch::Watch;
