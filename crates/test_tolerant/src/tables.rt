//! Tables of calls. A row has words that say what is called, a colon, the bytes for the call as hexadecimal digits, an arrow, and the
//! result of the call as text. A row without bytes has no colon. A line that begins with `//` describes the rows after it.

use pcap_core::PcapError;
use std::alloc::Global;
use std::test::Fail;
use test_support::rows::bytes;

/// Returns a failure with the first row whose call, on its words and its bytes, gives another text. A table must have a row.
pub(crate) fn every_call<F: Fn(Global, &str, &[u8]) -> Result<String, Fail>>(
    alloc: Global,
    table: &str,
    call: F,
) -> Result<(), Fail>
    requires { F.IsAlwaysCallable call }
{
    let mut has_row = false;
    for row in table.trim().lines() {
        if !row.trim().starts_with("//") {
            one_call(alloc, row.trim(), &call)?;
            has_row = true;
        }
    }
    if !has_row {
        return Err("a table without rows")?;
    }
    Ok(())
}

// Does the same for one row.
fn one_call<F: Fn(Global, &str, &[u8]) -> Result<String, Fail>>(
    alloc: Global,
    row: &str,
    call: &F,
) -> Result<(), Fail>
    requires { F.IsAlwaysCallable call.now }
{
    let (asked, shown) = row.split_once("=>").ok_or("a row with no arrow")?;
    let (words, digits) = asked.split_once(':').unwrap_or((asked, ""));
    let bytes = bytes(alloc, digits)?;
    let told = call(alloc, words.trim(), bytes.as_slice())?;
    if told.trim() == shown.trim() {
        return Ok(());
    }
    Err(Fail::new(format_args!("{asked}=> {told}")))
}

/// Formats why there is no packet or block, as the rows have it.
pub(crate) fn told_end(alloc: Global, error: &PcapError) -> Result<String, Fail> {
    match error {
        PcapError::IncompleteBuffer(n) => Ok(format!(in alloc; "needs {n}")?),
        PcapError::InvalidField(message) => Ok(format!(in alloc; "invalid {message}")?),
        _ => Err("another error")?,
    }
}

/// Formats bytes as digits, with a space before each four bytes.
pub(crate) fn digits_of(alloc: Global, bytes: &[u8]) -> Result<String, Fail> {
    let mut text = String::new(alloc);
    for group in bytes.chunks(4) {
        text.push(' ')?;
        for byte in group {
            write!(text, "{byte:02x}")?;
        }
    }
    Ok(text)
}
