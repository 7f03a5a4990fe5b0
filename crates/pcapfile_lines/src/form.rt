//! The forms of lines.

ghost use Rattle.std.specs.Prelude.{◌≡◌, IfOk, string_bytes};
ghost use Rattle.pcapfile_lines.specs.Lines.{IsLineIn};
ghost use Rattle.pcapfile_lines.specs.Rows.{has_rows};

use crate::columns::{columns_of, csv};
use crate::json::json;
use crate::plain::plain;
use crate::seen::Seen;
use crate::utc::utc;
use crate::utc_csv::utc_csv;
use std::alloc::{AllocError, Global};

/// The form of the line of a packet.
#[derive(Clone, Copy, Debug, PartialEq, Eq)]
pub enum Form {
    /// `index time captured/original interface`, with the time in UTC.
    Utc,
    /// Columns separated by commas, as `HEADING` names them.
    Csv,
    /// Columns separated by commas, as `UTC_HEADING` names them, with the time in UTC.
    UtcCsv,
    /// A JSON object with the same members.
    Json,
    /// `index time captured/original interface`, with the time in seconds since 1970. The rows of the stored bytes follow.
    Hex,
    /// The same with the time in UTC.
    UtcHex,
}

impl Form {
    /// Returns whether the rows of a packet's stored bytes follow its line.
    pub fn has_rows(self) -> bool
        ensures { result ≡ has_rows self }
    {
        matches!(self, Form::Hex | Form::UtcHex)
    }
}

/// Returns the line of the packet with this number. `None` means a packet with a malformed body.
pub fn line_of(
    alloc: Global,
    form: Form,
    index: u64,
    packet: Option<Seen>,
) -> Result<String, AllocError>
    ensures { IfOk result (λ line. IsLineIn form index packet (string_bytes line)) }
{
    match form {
        Form::Utc | Form::UtcHex => utc(alloc, index, packet),
        Form::Csv => csv(alloc, index, columns_of(packet)),
        Form::UtcCsv => utc_csv(alloc, index, packet),
        Form::Json => json(alloc, index, columns_of(packet)),
        Form::Hex => plain(alloc, index, packet),
    }
}
