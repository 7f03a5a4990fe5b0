//! Writers that have begun a capture, and checks of the bytes or the refusal that a call gives.

use crate::calls::{Call, parsed, put};
use pcap_core::{Endianness, PcapError, ResultParsing};
use pcap_written::{PcapNgBlock, PcapNgWriter};
use std::alloc::Global;
use std::test::Fail;
use test_support::captures::back;
use test_support::rows::are_digits;
use test_support::writers::Narrow;

/// Returns whether a call succeeded with true.
pub(crate) fn holds<E: Drop>(answer: Result<bool, E>) -> bool {
    matches!(answer, Ok(true))
}

/// Returns whether an error is an `InvalidField` with this message.
pub(crate) fn has_message(error: &PcapError, message: &str) -> bool {
    match error {
        PcapError::InvalidField(said) => *said == message,
        _ => false,
    }
}

/// Returns a writer of a section in this byte order that has described two interfaces.
pub(crate) fn begun<'a>(
    order: Endianness,
    alloc: Global,
    output: &'a mut Narrow,
) -> ResultParsing<PcapNgWriter<&'a mut Narrow>> {
    let mut writer = PcapNgWriter::with_endianness(alloc, order, output)?;
    let interface = Call {
        kind: "interface",
        what: "plain",
        count: 0,
        number: 0,
        bytes: &[],
        letters: "",
    };
    put(alloc, &mut writer, interface)?;
    put(alloc, &mut writer, interface)?;
    Ok(writer)
}

/// Returns whether a block is written as these bytes after a section in this byte order and two interfaces.
pub(crate) fn goes_out<B: PcapNgBlock>(
    alloc: Global,
    order: Endianness,
    block: &B,
    wanted: &[u8],
) -> ResultParsing<bool> {
    let mut output = Narrow::new(alloc, usize::MAX, true);
    let mut writer = begun(order, alloc, &mut output)?;
    let before = writer.get_ref().out.len();
    writer.write_pcapng_block(block)?;
    Ok(back(writer.get_ref().out.as_slice(), before) == wanted)
}

/// Returns whether a call writes these digits, or is refused with this message. Nothing is then written, and the writer hasn't failed.
pub(crate) fn tells(
    alloc: Global,
    writer: &mut PcapNgWriter<&mut Narrow>,
    call: Call<'_>,
    answer: &str,
) -> bool {
    let before = writer.get_ref().out.len();
    let calls = writer.get_ref().calls;
    let (order, interfaces) = (writer.endianness(), writer.interfaces());
    let told = put(alloc, writer, call);
    let is_as_before = writer.get_ref().calls == calls
        && writer.endianness() == order
        && writer.interfaces() == interfaces;
    let has_failed = writer.failed();
    let added = back(writer.get_ref().out.as_slice(), before);
    !has_failed
        && match &told {
            Ok(_) => are_digits(added, answer),
            Err(error) => has_message(error, answer) && is_as_before && added.is_empty(),
        }
}

/// Returns whether the call of a row is answered as the row says, for the first of its numbers.
pub(crate) fn tells_row(
    alloc: Global,
    writer: &mut PcapNgWriter<&mut Narrow>,
    row: &str,
) -> Result<bool, Fail> {
    let (call, number, answer) = parsed(row, &[], "")?;
    let number = number.parse::<u32>().ok().ok_or("a row with no number")?;
    Ok(tells(alloc, writer, Call { number, ..call }, answer))
}

/// Where a row is tried: behind a section in this byte order and its two interfaces. Afterwards another row is written.
#[derive(Clone, Copy)]
pub(crate) struct Place<'a> {
    /// The byte order of the section.
    pub order: Endianness,
    /// The row that is written afterwards.
    pub next: &'a str,
    /// The bytes of values.
    pub bytes: &'a [u8],
    /// The letters of texts.
    pub letters: &'a str,
}

impl Place<'_> {
    // Returns whether a call is answered as expected here, and the next row is written.
    fn leaves(self, alloc: Global, call: Call<'_>, answer: &str) -> Result<bool, Fail> {
        let mut output = Narrow::new(alloc, usize::MAX, true);
        let mut writer = begun(self.order, alloc, &mut output)?;
        let is_told = tells(alloc, &mut writer, call, answer);
        Ok(is_told && tells_row(alloc, &mut writer, self.next)?)
    }

    /// Checks that the calls of a row, one for each number, are answered as the row says. Otherwise it returns a failure that names the
    /// number and the row.
    pub(crate) fn check(self, alloc: Global, row: &str) -> Result<(), Fail> {
        let (call, numbers, answer) = parsed(row, self.bytes, self.letters)?;
        for word in numbers.split(',') {
            let number = word.parse::<u32>().ok().ok_or("a row with no number")?;
            if !self.leaves(alloc, Call { number, ..call }, answer)? {
                return Err(Fail::new(format_args!("{word}: {row}")));
            }
        }
        Ok(())
    }

    /// Checks each row of a table. A table must have a row.
    pub(crate) fn check_all(self, alloc: Global, table: &str) -> Result<(), Fail> {
        if table.trim().is_empty() {
            return Err(Fail::new("a table without rows"));
        }
        for row in table.trim().lines() {
            self.check(alloc, row)?;
        }
        Ok(())
    }
}
