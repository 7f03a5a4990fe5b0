//! The parts that all words of the program `pcapfile` share: reading captures, writing files, showing progress, and printing
//! messages on standard error.
#![tactic(auto)]

mod console;
mod count;
mod destination;
mod digest;
mod folders;
mod foreign;
mod identity;
mod input;
mod numbered;
mod output;
mod part;
mod progress;
mod shown;
mod standard;
mod tell;
mod walk;

pub use console::{Console, Notes};
pub use count::Count;
pub use folders::{EachFile, Inputs, PCAP_EXTENSIONS, PCAPNG_EXTENSIONS, read_files};
pub use input::{STANDARD, Watched, buffered, open_further, open_watched};
pub use numbered::unnumbered;
pub use output::{OUTPUT, Output, write_named};
pub use shown::{NOT_UTF8, Shown, ShownJson};
pub use standard::keep_standard_streams;
pub use tell::{
    AT_FAULT, FAILED, UNREAD, USAGE, status_of, tell_changed, tell_error, tell_exit, tell_foreign,
    tell_io, tell_misnamed, tell_other_file, tell_refused, tell_unwritten,
};
