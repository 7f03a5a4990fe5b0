//! Tables whose rows name a call.

use pcap_blocks::BlockType;
use std::alloc::Global;
use std::test::Fail;

/// Calls that the rows of a table name.
pub(crate) trait Calls {
    /// Returns the result of a call as text. It is given digits of bytes, or numbers.
    fn result(alloc: Global, name: &str, given: &str) -> Result<String, Fail>;
}

/// Checks each row of a table: the name of a call, what it is given, an arrow, and its result. Otherwise it returns a failure with the
/// row, and what the call gives. A table must have a row.
pub(crate) fn every_call<C: Calls>(alloc: Global, table: &str) -> Result<(), Fail> {
    if table.trim().is_empty() {
        return Err(Fail::from("a table without rows"));
    }
    for row in table.trim().lines() {
        let (left, shown) = row.split_once("=>").ok_or("a row with no arrow")?;
        one_call::<C>(alloc, left.trim_start(), shown.trim())?;
    }
    Ok(())
}

// Checks a row: what stands before its arrow, and after it.
fn one_call<C: Calls>(alloc: Global, left: &str, shown: &str) -> Result<(), Fail> {
    let (name, given) = left.split_once(" ").ok_or("a row with no name")?;
    let told = C::result(alloc, name, given.trim())?;
    if told.as_str() == shown {
        return Ok(());
    }
    Err(Fail::new(format_args!("{told} in the row {left}=> {shown}")))
}

/// Checks a row in which `..` is replaced by a list: the digits of its members, and after the arrow their texts, as the rows of a table
/// have them.
pub(crate) fn whole_list<C: Calls>(alloc: Global, row: &str, table: &str) -> Result<(), Fail> {
    if table.trim().is_empty() {
        return Err(Fail::from("a table without rows"));
    }
    let (left, shown) = row.split_once("=>").ok_or("a row with no arrow")?;
    let left = with_list(alloc, left, table, false)?;
    let shown = with_list(alloc, shown.trim(), table, true)?;
    one_call::<C>(alloc, left.as_str(), shown.as_str())
}

// Returns a half of such a row, with the members' digits, or their texts, in place of `..`.
fn with_list(alloc: Global, half: &str, table: &str, is_text: bool) -> Result<String, Fail> {
    let list = list(alloc, table, is_text)?;
    Ok(half.replace(alloc, "..", list.as_str())?)
}

// Returns the digits of the members of a table, or their texts separated by commas.
fn list(alloc: Global, table: &str, is_text: bool) -> Result<String, Fail> {
    let mut list = String::new(alloc);
    for row in table.trim().lines() {
        let (digits, text) = row.split_once("=>").ok_or("a row with no arrow")?;
        let member = if is_text { text } else { digits };
        let comma = if is_text && !list.is_empty() {
            ", "
        } else {
            ""
        };
        write!(list, "{comma}{}", member.trim())?;
    }
    Ok(list)
}

/// Returns the failure of a row whose call is unknown.
pub(crate) fn no_call(name: &str) -> Fail {
    Fail::new(format_args!("no call has the name {name}"))
}

/// Returns the type of blocks that a row names: by a word, or by its number if it is unknown.
pub(crate) fn block_type(name: &str) -> Result<BlockType, Fail> {
    Ok(match name {
        "section" => BlockType::SectionHeader,
        "interface" => BlockType::InterfaceDescription,
        "packet" => BlockType::Packet,
        "simple" => BlockType::SimplePacket,
        "names" => BlockType::NameResolution,
        "statistics" => BlockType::InterfaceStatistics,
        "enhanced" => BlockType::EnhancedPacket,
        "journal" => BlockType::SystemdJournalExport,
        number => BlockType::Unknown(number.parse::<u32>()?),
    })
}
