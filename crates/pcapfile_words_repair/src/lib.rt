//! The word `repair` of the program `pcapfile`, and its lenient `check` and `list`.
#![tactic(auto)]

mod as_is;
mod check_as_is;
mod header;
mod list_as_is;
mod repair;

pub use check_as_is::check_files_as_is;
pub use header::opening_of;
pub use list_as_is::list_files_as_is;
pub use repair::{Repair, repair_file};
