//! The text report on a capture.

ghost use Rattle.std.specs.Prelude.{◌≡◌};
ghost use Rattle.serde_json.specs.Data.{string};
ghost use Rattle.pcapfile_shown.specs.Json.{order_data, resolution_data};

use crate::figures::Figures;
use crate::interfaces::Interfaces;
use crate::others::OtherBlocks;
use pcap_file::pcap::PcapHeader;
use pcap_file::{Endianness, LinkField, TsResolution};
use pcapfile_info::{Information, Machine, Opened};
use std::fmt;

/// The text report on a capture, in lines: the result of its check, its opening, its counts, and its interfaces.
#[derive(Clone, Copy)]
pub struct Report<'a> {
    /// The capture's name.
    pub name: &'a str,
    /// The digest of the capture's bytes, if it is to be shown.
    pub digest: Option<&'a str>,
    /// The information on the capture.
    pub information: &'a Information,
}

/// The lines on the header of a classic capture.
#[derive(Clone, Copy)]
struct Header<'a>(&'a PcapHeader);

/// The lines on the sections of a PcapNg capture.
#[derive(Clone, Copy)]
struct Sections<'a> {
    information: &'a Information,
    opened: Opened,
}

/// The lines on how a section was made. The texts are written as literals, so that no byte of them reaches a terminal as it is.
#[derive(Clone, Copy)]
struct Made<'a>(&'a Machine);

pub(crate) fn order_name(order: Endianness) -> &'static str
    ensures { string result.now ≡ order_data order }
{
    match order {
        Endianness::Big => "big-endian",
        Endianness::Little => "little-endian",
    }
}

pub(crate) fn resolution_name(resolution: TsResolution) -> &'static str
    ensures { string result.now ≡ resolution_data resolution }
{
    match resolution {
        TsResolution::MicroSecond => "microseconds",
        TsResolution::NanoSecond => "nanoseconds",
    }
}

impl fmt::Display for Header<'_> {
    fn fmt<W: fmt::Write>(&self, f: &mut fmt::Formatter<W>) -> fmt::Result {
        let header = self.0;
        if !header.has_valid_magic() {
            return Ok(());
        }
        let order = order_name(header.endianness());
        let resolution = resolution_name(header.ts_resolution());
        let major = header.version_major;
        let minor = header.version_minor;
        let LinkField { link, fcs_len } = LinkField::from(u32::from(header.datalink));
        let link_number = u32::from(link);
        let snaplen = header.snaplen;
        writeln!(
            f,
            "  File type:         pcap {major}.{minor}, {order}, times in {resolution}"
        )?;
        writeln!(f, "  Link type:         {link:?} ({link_number})")?;
        if let Some(bytes) = fcs_len {
            writeln!(
                f,
                "  Frame check:       {bytes} bytes at the end of each packet"
            )?;
        }
        writeln!(f, "  Packet size limit: {snaplen} bytes")
    }
}

impl fmt::Display for Sections<'_> {
    fn fmt<W: fmt::Write>(&self, f: &mut fmt::Formatter<W>) -> fmt::Result {
        let opened = self.opened;
        let major = opened.major_version;
        let minor = opened.minor_version;
        let order = order_name(opened.order);
        let told = self.information;
        let sections = told.totals.sections.saturating_add(1);
        let interfaces = told.described.len();
        let refused = told.totals.refused;
        let undescribed = told.totals.undescribed.packets;
        writeln!(f, "  File type:         pcapng {major}.{minor}, {order}")?;
        writeln!(f, "  Sections:          {sections}")?;
        writeln!(f, "  Interfaces:        {interfaces}")?;
        if refused > 0 {
            writeln!(f, "  Refused packets:   {refused}")?;
        }
        if undescribed > 0 {
            writeln!(f, "  No interface:      {undescribed} packets")?;
        }
        let others = OtherBlocks(&told.totals.others);
        write!(f, "{others}")
    }
}

impl fmt::Display for Made<'_> {
    fn fmt<W: fmt::Write>(&self, f: &mut fmt::Formatter<W>) -> fmt::Result {
        let Machine {
            application,
            hardware,
            os,
        } = self.0;
        if let Some(application) = application {
            writeln!(f, "  Application:       {application:?}")?;
        }
        if let Some(hardware) = hardware {
            writeln!(f, "  Hardware:          {hardware:?}")?;
        }
        if let Some(os) = os {
            writeln!(f, "  Operating system:  {os:?}")?;
        }
        Ok(())
    }
}

impl fmt::Display for Report<'_> {
    fn fmt<W: fmt::Write>(&self, f: &mut fmt::Formatter<W>) -> fmt::Result {
        let name = self.name;
        let told = self.information;
        let checked = &told.checked;
        writeln!(f, "{name}: {checked}")?;
        if let Some(digest) = self.digest {
            writeln!(f, "  SHA-256:           {digest}")?;
        }
        if let Some(header) = &told.header {
            let header = Header(header);
            write!(f, "{header}")?;
        }
        if let Some(opened) = told.opened {
            let information = told;
            let sections = Sections {
                information,
                opened,
            };
            write!(f, "{sections}")?;
        }
        let made = Made(&told.machine);
        write!(f, "{made}")?;
        for comment in told.comments.iter() {
            writeln!(f, "  Comment:           {comment:?}")?;
        }
        let figures = Figures(&told.totals.all);
        let interfaces = Interfaces(told);
        write!(f, "{figures}{interfaces}")
    }
}
