//! The words `check`, `info` and `list` of the program `pcapfile`.
#![tactic(auto)]

mod check;
mod info;
mod list;

pub use check::{Checking, check_files};
pub use info::{Informing, Reporting, inform_files};
pub use list::{Listing, list_files};
