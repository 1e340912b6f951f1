//! A keeper of entries over a database file.
#![tactic(auto)]

mod count_file;
mod database;
mod file_keeper;
mod keeper;
mod rows;
mod tables;

pub use count_file::CountFile;
pub use file_keeper::{FileKeeper, OpenError, close_keeper, open_keeper};
pub use keeper::SqliteKeeper;
