//! The name records of rows, as `calls` describes them. For `ipv4` and `ipv6` the names stand in the place of WHAT, and the count is how
//! many bytes the address has. For `record` the length that the record states stands there, the count is how many bytes the record has, and
//! the number is its type.

use crate::calls::{Call, short};
use crate::options::listed;
use pcap_blocks::{Ipv4Record, Ipv6Record, Record, UnknownRecord};
use pcap_core::{CowBytes, PcapError, ResultParsing};
use std::alloc::{AllocError, Global};
use std::borrow::CowStr;

/// Returns a list of a record that can be written and the one of a row, or no records if the row has none.
pub(crate) fn record<'a>(alloc: Global, call: Call<'a>) -> ResultParsing<Vec<Record<'a>>> {
    let ip_addr = CowBytes::Borrowed(call.value());
    let names = names(alloc, call)?;
    let record = match call.kind {
        "ipv4" => Some(Record::Ipv4(Ipv4Record { ip_addr, names })),
        "ipv6" => Some(Record::Ipv6(Ipv6Record { ip_addr, names })),
        "record" => Some(unknown(call)?),
        "end" => Some(Record::End),
        _ => None,
    };
    let good = Record::Ipv4(Ipv4Record {
        ip_addr: CowBytes::Borrowed(&[10, 0, 0, 1]),
        names: vec![in alloc; CowStr::Borrowed("a")]?,
    });
    Ok(listed(alloc, good, record)?)
}

// Returns a record that states a length, with the number of the row as its type.
fn unknown<'a>(call: Call<'a>) -> ResultParsing<Record<'a>> {
    let Ok(length) = call.what.parse::<u16>() else {
        return Err(PcapError::InvalidField("no length"));
    };
    Ok(Record::Unknown(UnknownRecord {
        type_: short(call.number),
        length,
        value: CowBytes::Borrowed(call.value()),
    }))
}

// Returns the names of a row: each is a number of letters or the name itself. A dash is no name.
fn names<'a>(alloc: Global, call: Call<'a>) -> Result<Vec<CowStr<'a>>, AllocError> {
    let mut names = Vec::new(alloc);
    for name in call.what.split(',') {
        let text = match name.parse::<usize>() {
            Ok(count) => call.letters.get(..count).unwrap_or(""),
            Err(_) => name,
        };
        if name != "-" {
            names.push(CowStr::Borrowed(text))?;
        }
    }
    Ok(names)
}
