//! Reports on captures, as text, as JSON, and as a table.
#![tactic(auto)]

mod bar;
mod figures;
mod histogram;
mod interfaces;
mod members;
mod others;
mod over_time;
mod piecewise;
mod rate;
mod report;
mod table;
mod time;
mod told;
mod total;

pub use bar::{Bar, bar_of};
pub use piecewise::Unwritten;
pub use rate::{
    Hundredths, Seconds, duration_of, hundredths_of, hundredths_per_second, seconds_since_1970,
};
pub use report::Report;
pub use table::{COLUMNS, row_of};
pub use time::Utc;
pub use told::write_json;
pub use total::Total;
