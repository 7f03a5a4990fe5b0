//! Files that are not plain captures, and captures that a text-mode transfer changed.

use crate::walk::{Walk, begins_capture};
use pcap_altered::is_transferred;
use pcap_variants::{Further, variant_of};
use std::fmt;

/// The number of first bytes by which a text is recognized.
const SAMPLE: usize = 512;

/// The length of the magic number of a capture, in bytes.
const MAGIC: usize = 4;

/// The length of a record's header in an ERF file, in bytes.
const ERF_HEADER: usize = 16;

/// The most records by which an ERF file is recognized. Other bytes are often a plausible record, and rarely several.
const ERF_RECORDS: u32 = 4;

/// The first second of 1990, since 1970. Earlier times are taken for other bytes.
const YEAR_1990: u32 = 631_152_000;

/// What a message says of a capture of the program snoop.
const SNOOP: &str =
    "is a capture in the format snoop; 'editcap FILE OUT' of Wireshark converts it to PcapNg";

/// What a message says of an ERF file.
const ERF: &str =
    "is a capture in the format ERF; 'editcap FILE OUT' of Wireshark converts it to PcapNg";

/// The first bytes of a PcapNg capture that a text-mode transfer changed.
const CHANGED_SECTION: &[u8] = b"\r\n\r\r\r\n";

/// What a message says of a capture that a text-mode transfer changed.
const CHANGED: &str =
    "looks as if a text-mode transfer turned LF into CR LF; 'pcapfile repair --guess' undoes it";

/// What a file is that doesn't begin like a capture, or that a text-mode transfer changed.
#[derive(Clone, Copy)]
pub(crate) enum Foreign {
    /// It has no bytes.
    Empty,
    /// It is compressed.
    Packed(Packing),
    /// It is a capture of the program snoop.
    Snoop,
    /// It is a capture in the extensible record format.
    Erf,
    /// It is a page of the web.
    Page,
    /// It is a text.
    Text,
    /// It is a PcapNg capture that a text-mode transfer changed.
    ChangedBlocks,
    /// It looks like a classic capture that a text-mode transfer changed.
    ChangedPackets,
    /// It is a classic capture with further bytes in the header of each packet.
    Variant(Further),
    /// It is something else.
    Unknown,
}

/// Returns whether a file with these first bytes is a capture of this program's formats, one of snoop, or one that a transfer changed. The
/// first bytes of an ERF file are those of many other files too.
pub(crate) fn is_capture(bytes: &[u8]) -> bool {
    match Foreign::of_front(bytes) {
        None => bytes.len() >= MAGIC,
        Some(
            Foreign::Snoop | Foreign::ChangedBlocks | Foreign::ChangedPackets | Foreign::Variant(_),
        ) => true,
        Some(
            Foreign::Empty
            | Foreign::Packed(_)
            | Foreign::Erf
            | Foreign::Page
            | Foreign::Text
            | Foreign::Unknown,
        ) => false,
    }
}

/// A way to compress files.
#[derive(Clone, Copy)]
pub(crate) enum Packing {
    Gzip,
    Zstd,
    Lz4,
    Xz,
    Bzip2,
}

impl Packing {
    /// Each way that is recognized.
    const EACH: [Packing; 5] = [
        Packing::Gzip,
        Packing::Zstd,
        Packing::Lz4,
        Packing::Xz,
        Packing::Bzip2,
    ];

    // Returns whether a file with these first bytes is compressed in this way.
    fn begins(self, bytes: &[u8]) -> bool {
        match self {
            Packing::Gzip => bytes.starts_with(b"\x1f\x8b"),
            Packing::Zstd => bytes.starts_with(b"\x28\xb5\x2f\xfd"),
            Packing::Lz4 => bytes.starts_with(b"\x04\x22\x4d\x18"),
            Packing::Xz => bytes.starts_with(b"\xfd7zXZ\0"),
            Packing::Bzip2 => bytes.starts_with(b"BZh"),
        }
    }

    // Returns the name of the format, with its article.
    fn name(self) -> &'static str {
        match self {
            Packing::Gzip => "a gzip",
            Packing::Zstd => "a zstd",
            Packing::Lz4 => "an lz4",
            Packing::Xz => "an xz",
            Packing::Bzip2 => "a bzip2",
        }
    }

    // Returns the command that decompresses a file into a pipe.
    fn command(self) -> &'static str {
        match self {
            Packing::Gzip => "zcat",
            Packing::Zstd => "zstdcat",
            Packing::Lz4 => "lz4cat",
            Packing::Xz => "xzcat",
            Packing::Bzip2 => "bzcat",
        }
    }
}

impl Foreign {
    /// Returns what a file with these first bytes is, or `None` if it begins like a plain capture that no text-mode transfer changed.
    pub(crate) fn of_front(bytes: &[u8]) -> Option<Foreign> {
        if bytes.is_empty() {
            return Some(Foreign::Empty);
        }
        if bytes.starts_with(CHANGED_SECTION) {
            return Some(Foreign::ChangedBlocks);
        }
        if let Some(variant) = variant_of(bytes) {
            return Some(Foreign::Variant(variant.further));
        }
        if begins_capture(bytes) {
            return if is_changed(bytes) {
                Some(Foreign::ChangedPackets)
            } else {
                None
            };
        }
        for packing in Packing::EACH {
            if packing.begins(bytes) {
                return Some(Foreign::Packed(packing));
            }
        }
        Some(if bytes.starts_with(b"snoop\0\0\0") {
            Foreign::Snoop
        } else if is_page(bytes) {
            Foreign::Page
        } else if is_text(bytes) {
            Foreign::Text
        } else if is_erf(bytes) {
            Foreign::Erf
        } else {
            Foreign::Unknown
        })
    }
}

impl fmt::Display for Foreign {
    fn fmt<W: fmt::Write>(&self, f: &mut fmt::Formatter<W>) -> fmt::Result {
        match self {
            Foreign::Empty => f.write_str("is empty"),
            Foreign::Packed(packing) => write!(
                f,
                "is {} file, not a capture; '{} FILE | pcapfile info -' reads it",
                packing.name(),
                packing.command()
            ),
            Foreign::Snoop => f.write_str(SNOOP),
            Foreign::Erf => f.write_str(ERF),
            Foreign::Page => f.write_str("is an HTML page, not a capture"),
            Foreign::Text => f.write_str("is a text file, not a capture"),
            Foreign::ChangedBlocks | Foreign::ChangedPackets => f.write_str(CHANGED),
            Foreign::Variant(further) => write!(
                f,
                "has {further}; 'pcapfile repair' makes it a plain capture"
            ),
            Foreign::Unknown => f.write_str("is not a capture"),
        }
    }
}

// Returns whether a classic capture with these first bytes has more packets there, or fewer corrupt bytes, after a text-mode
// transfer is undone.
fn is_changed(bytes: &[u8]) -> bool {
    if !is_transferred(bytes) {
        return false;
    }
    let mut own = Walk::new();
    let own_packets = own.pass(bytes);
    let mut undone = Walk::new();
    let mut undone_packets: u64 = 0;
    let mut left = bytes;
    for _ in 0..=bytes.len() {
        let end = left.windows(2).position(|pair| pair == b"\r\n".as_slice());
        let (line, rest) = left.split_at(end.unwrap_or(left.len()).min(left.len()));
        undone_packets = undone_packets.saturating_add(undone.pass(line));
        let Some(behind) = rest.get(1..) else {
            break;
        };
        left = behind;
    }
    !undone.is_lost() && (own.is_lost() || undone_packets > own_packets)
}

// Returns whether the bytes begin like a page of the web, behind white space.
fn is_page(bytes: &[u8]) -> bool {
    let front = bytes.trim_ascii_start();
    ["<!doctype html", "<html"]
        .iter()
        .any(|start| match front.get(..start.len()) {
            Some(front) => front.eq_ignore_ascii_case(start.as_bytes()),
            None => false,
        })
}

// Returns whether the first bytes are those of an ASCII text.
fn is_text(bytes: &[u8]) -> bool {
    let sample = bytes.get(..SAMPLE).unwrap_or(bytes);
    sample.iter().all(|byte| byte.is_ascii_graphic()
        || matches!(*byte, b' ' | b'\t' | b'\r' | b'\n'))
}

// Returns whether the bytes begin with records of an ERF file. Up to four of them are looked at, as far as they lie in the bytes.
fn is_erf(bytes: &[u8]) -> bool {
    let mut left = bytes;
    for record in 0..ERF_RECORDS {
        let Some(length) = erf_length(left) else {
            return record > 0 && left.len() < ERF_HEADER;
        };
        let Some(rest) = left.get(length..) else {
            return record > 0;
        };
        left = rest;
    }
    true
}

// Returns the length of an ERF record if its header is plausible: a time since 1990, a known type, and a length that holds the header.
fn erf_length(bytes: &[u8]) -> Option<usize> {
    let head = bytes.get(..ERF_HEADER)?;
    let seconds = u32::from_le_bytes([head[4], head[5], head[6], head[7]]);
    let length = usize::from(u16::from_be_bytes([head[10], head[11]]));
    let is_plausible = seconds >= YEAR_1990
        && (1..=48).contains(&(head[8] & 0x7F))
        && length >= ERF_HEADER;
    if is_plausible { Some(length) } else { None }
}
