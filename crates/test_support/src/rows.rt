//! Tables of bytes and of the results of calls on them.
//!
//! A row of a table has bytes as hexadecimal digits, an arrow, and the result of a call as text: the remainder and the value, or the
//! error. These lines were written by hand, from the bytes and the rules of the formats.

use pcap_core::{PcapError, ResultParsing};
use std::alloc::Global;
use std::fmt::Debug;
use std::io::ErrorKind;
use std::test::Fail;

// Returns the digits of a row, and the result of a call.
fn halves(row: &str) -> Result<(&str, &str), Fail> {
    match row.split_once("=>") {
        Some((digits, shown)) => Ok((digits, shown.trim())),
        None => Err(Fail::from("a row with no arrow")),
    }
}

/// Returns the rows of a table: the digits, and the result of a call.
pub fn rows<'a>(alloc: Global, table: &'a str) -> Result<Vec<(&'a str, &'a str)>, Fail> {
    let mut rows = Vec::new(alloc);
    for row in table.trim().lines() {
        rows.push(halves(row)?)?;
    }
    Ok(rows)
}

/// Returns whether a call on the bytes of each row gives the result of that row. Otherwise it returns a failure that names the row.
pub fn every_row<F: Fn(Global, &[u8]) -> Result<String, Fail>>(
    alloc: Global,
    table: &str,
    call: F,
) -> Result<(), Fail>
    requires { F.IsAlwaysCallable call }
{
    if table.trim().is_empty() {
        return Err(Fail::from("a table without rows"));
    }
    for row in table.trim().lines() {
        let (digits, shown) = halves(row)?;
        one_row(alloc, digits, shown, &call)?;
    }
    Ok(())
}

// Does the same for one row.
fn one_row<F: Fn(Global, &[u8]) -> Result<String, Fail>>(
    alloc: Global,
    digits: &str,
    shown: &str,
    call: &F,
) -> Result<(), Fail>
    requires { F.IsAlwaysCallable call.now }
{
    let bytes = bytes(alloc, digits)?;
    let told = call(alloc, bytes.as_slice())?;
    same(told.as_str(), shown)
}

/// Returns a failure with both texts if they differ.
pub fn same(told: &str, shown: &str) -> Result<(), Fail> {
    if told == shown {
        return Ok(());
    }
    Err(Fail::new(format_args!("{told} in place of {shown}")))
}

/// Returns the bytes of these digits. White space between them is ignored.
pub fn bytes(alloc: Global, digits: &str) -> Result<Vec<u8>, Fail> {
    let mut pairs = String::new(alloc);
    for word in digits.split_ascii_whitespace() {
        pairs.push_str(word)?;
    }
    Ok(hex::decode(alloc, pairs)?)
}

/// Returns whether the bytes are those of these digits.
pub fn are_digits(bytes: &[u8], digits: &str) -> bool {
    let mut count = 0usize;
    for digit in digits.bytes() {
        if digit.is_ascii_whitespace() {
            continue;
        }
        let byte = bytes.get(count / 2).copied().unwrap_or(0);
        let half = if count % 2 == 0 { byte >> 4 } else { byte & 15 };
        if (digit as char).to_digit(16) != Some(u32::from(half)) {
            return false;
        }
        count = count.saturating_add(1);
    }
    count % 2 == 0 && count / 2 == bytes.len()
}

/// Formats the result of a call: the remainder and the value, or the error.
pub fn told<T: Debug + Drop>(
    alloc: Global,
    outcome: ResultParsing<(&[u8], T)>,
) -> Result<String, Fail> {
    let text = match &outcome {
        Ok((rest, value)) => format!(in alloc; "{rest:?} {value:?}"),
        Err(error) => String::from_str(alloc, refusal(error)),
    };
    Ok(text?)
}

/// Does the same for a call without a remainder.
pub fn told_alone<T: Debug + Drop>(
    alloc: Global,
    outcome: ResultParsing<T>,
) -> Result<String, Fail> {
    let text = match &outcome {
        Ok(value) => format!(in alloc; "{value:?}"),
        Err(error) => String::from_str(alloc, refusal(error)),
    };
    Ok(text?)
}

// Returns why a call gives no value: the message of an `InvalidField`, or the kind of the error. Too few bytes are an early end.
fn refusal(error: &PcapError) -> &'static str {
    match error {
        PcapError::InvalidField(message) => *message,
        PcapError::IoError(error) if error.kind() == ErrorKind::UnexpectedEof => "IoError",
        PcapError::Utf8Error(_) => "Utf8Error",
        PcapError::OutOfMemory(_) => "OutOfMemory",
        _ => "another",
    }
}
