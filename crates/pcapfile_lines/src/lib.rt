//! Lines of packets in several forms.
#![tactic(auto)]

mod columns;
mod form;
mod json;
mod plain;
mod rows;
mod seen;
mod utc;
mod utc_csv;

pub use columns::HEADING;
pub use form::{Form, line_of};
pub use rows::{Row, row_at, row_count};
pub use seen::Seen;
pub use utc::{instant_of, utc_text};
pub use utc_csv::UTC_HEADING;
