//! Descriptions of interfaces and the counts of their packets, as text.

use crate::figures::Figures;
use pcapfile_info::{Described, Device, DeviceTexts, Information};
use std::fmt;

/// The lines that describe an interface. Names and comments are written as literals, so that no byte of them reaches a terminal
/// as it is.
#[derive(Clone, Copy)]
struct Interface<'a>(&'a Described);

/// The lines on an interface's device. The texts are written as literals too.
#[derive(Clone, Copy)]
struct Texts<'a>(&'a DeviceTexts);

/// The lines on all interfaces of a PcapNg capture. If there are several, the counts of each follow its description.
#[derive(Clone, Copy)]
pub(crate) struct Interfaces<'a>(pub(crate) &'a Information);

impl fmt::Display for Interface<'_> {
    fn fmt<W: fmt::Write>(&self, f: &mut fmt::Formatter<W>) -> fmt::Result {
        let described = self.0;
        let number = described.number;
        let section = described.section;
        let link = described.link;
        let link_number = u32::from(link);
        let snaplen = described.snaplen;
        write!(
            f,
            "Interface {number} of section {section}: link type {link:?} ({link_number})"
        )?;
        if let Some(name) = &described.name {
            write!(f, ", name {name:?}")?;
        }
        if snaplen > 0 {
            write!(f, ", at most {snaplen} bytes of a packet")?;
        }
        f.write_str("\n")?;
        if let Device::Told(texts) = &described.device {
            let texts = Texts(&**texts);
            write!(f, "{texts}")?;
        }
        for comment in described.comments.iter() {
            writeln!(f, "  Comment:           {comment:?}")?;
        }
        Ok(())
    }
}

impl fmt::Display for Texts<'_> {
    fn fmt<W: fmt::Write>(&self, f: &mut fmt::Formatter<W>) -> fmt::Result {
        let DeviceTexts {
            description,
            hardware,
            os,
        } = self.0;
        if let Some(description) = description {
            writeln!(f, "  Description:       {description:?}")?;
        }
        if let Some(hardware) = hardware {
            writeln!(f, "  Hardware:          {hardware:?}")?;
        }
        if let Some(os) = os {
            writeln!(f, "  Operating system:  {os:?}")?;
        }
        Ok(())
    }
}

impl fmt::Display for Interfaces<'_> {
    fn fmt<W: fmt::Write>(&self, f: &mut fmt::Formatter<W>) -> fmt::Result {
        let told = self.0;
        let are_several = told.described.len() > 1;
        for (described, counts) in told.described.iter().zip(told.totals.interfaces.iter()) {
            let interface = Interface(described);
            write!(f, "{interface}")?;
            if are_several {
                let tally = counts.tally();
                let figures = Figures(&tally);
                write!(f, "{figures}")?;
            }
        }
        Ok(())
    }
}
