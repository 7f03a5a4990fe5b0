//! The lines that `check` writes.

use pcap_file::{PcapError, Rule};
use pcapfile_run::{Checked, End, Format};
use std::alloc::Global;
use std::io;
use std::io::ErrorKind;
use std::test::*;
use test_support::rows::same;

// Checks that a check of seven blocks and 1234 bytes with this end has this line.
fn tells(alloc: Global, end: End, text: &str) -> Result<(), Fail> {
    let checked = Checked {
        format: Format::PcapNg,
        items: 7,
        bytes: 1234,
        end,
    };
    let line = format!(in alloc; "{checked}")?;
    let wanted = format!(in alloc; "pcapng, 7 blocks, {text}")?;
    same(line.as_str(), wanted.as_str())
}

#[test]
fn lines(rt: HostRuntime) -> Result<(), Fail> {
    let alloc = rt.alloc();
    let lost = PcapError::IoError(io::Error::new(ErrorKind::Other, "lost"));
    let magic = "refused at byte 1234 by rule 1: PcapHeader wrong magic number";
    tells(alloc, End::Whole, "1234 bytes")?;
    tells(alloc, End::Most, "1234 bytes or more")?;
    tells(alloc, End::Short, "cut short at byte 1234")?;
    tells(alloc, End::Breaks(Rule::CaptureMagic), magic)?;
    tells(alloc, End::NotUtf8, "not UTF-8 at byte 1234")?;
    tells(alloc, End::Unread(lost), "unread from byte 1234: lost")?;
    tells(alloc, End::Memory, "no memory at byte 1234")
}
