//! The words `convert` and `merge` of the program `pcapfile`.
#![tactic(auto)]

mod convert;
mod merge;

pub use convert::{Conversion, convert_file};
pub use merge::{Merge, merge_files};
