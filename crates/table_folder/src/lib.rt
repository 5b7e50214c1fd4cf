//! The files of one table in a folder: what a crash may leave of them, what a start finds then, and how a state takes the place of a log.
#![tactic(auto)]

mod about;
mod base;
mod compacting;
mod deciding;
mod declaring;
mod digesting;
mod ended;
mod fault;
mod files;
mod folder;
mod found_log;
mod frame;
mod framing;
mod installing;
mod law;
mod lines;
mod logs;
mod name;
mod older;
mod parts;
mod plain;
mod put;
mod reading;
mod retiring;
mod settling;
mod spent;
mod start_law;
mod state_in;
mod synced_law;
mod window;

pub use about::About;
pub use base::Base;
pub use compacting::compact;
pub use deciding::{Decided, decide};
pub use declaring::declare;
pub use ended::{Ended, OldLog, is_later};
pub use fault::FolderFault;
pub use files::{read_file, read_mark};
pub use folder::Folder;
pub use found_log::{FoundLog, find_log, is_there};
pub use frame::{FRONT, LAST_LINE, first_line, last_line};
pub use installing::{install, what_is_installed_is_found};
pub use law::compacting_loses_nothing;
pub use logs::make_log;
pub use name::FileName;
pub use older::{Older, find_older};
pub use plain::{refuse_beside, refuse_plain};
pub use put::put_state;
pub use retiring::{retire, take_over};
pub use settling::settle;
pub use spent::{clean, spent_logs};
pub use start_law::{a_closed_log_stands, a_start_goes_on, an_open_log_goes_on};
pub use state_in::{Begin, read_begin};
pub use synced_law::{
    what_is_synced_is_found, what_was_answered_is_found, what_was_synced_is_found,
};
