//! The records of a table as commands that insert them, and as rows of CSV.
#![tactic(auto)]

mod fault;
mod fields;
mod header;
mod inserts;
mod law;
mod printing;
mod reading;

pub use fault::{CellWhy, Unwritten};
pub use header::{has_twice, missing_in, place_in, unknown_in};
pub use inserts::{insert_line, write_inserts};
pub use law::csv_cells;
pub use printing::write_csv;
pub use reading::cell_in;
