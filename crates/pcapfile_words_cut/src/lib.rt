//! The words `cut`, `join` and `sort` of the program `pcapfile`.
#![tactic(auto)]

mod cut;
mod join;
mod sort;

pub use cut::{Cutting, Way, cut_file};
pub use join::{Joining, join_files};
pub use sort::{Sorting, sort_file};
