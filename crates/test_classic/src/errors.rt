//! The messages of errors, conversions between errors, and texts of values.

use crate::calls::filled;
use pcap_classic::pcap::{Packet, PcapHeader, PcapParser, PcapReader, PcapWriter};
use pcap_classic::rules::Rule;
use pcap_classic::{CowBytes, DataLink, Endianness, PcapError, TsResolution};
use std::alloc::{AllocError, Global};
use std::fmt::Debug;
use std::io::ErrorKind;
use std::string::String;
use std::test::Fail;
use std::{io, str};
use test_support::captures::{BIG_HEAD, front};

// Returns the error of bytes that aren't UTF-8.
fn of_utf8() -> PcapError {
    match str::from_utf8(&[0xff]) {
        Err(error) => PcapError::from(error),
        Ok(_) => PcapError::WriterFailed,
    }
}

// Does the same for owned bytes.
fn of_owned_utf8(bytes: Vec<u8>) -> PcapError {
    match String::from_utf8(bytes) {
        Err(error) => PcapError::from(error),
        Ok(_) => PcapError::WriterFailed,
    }
}

// Returns the error of this name. All but the first three are converted from another error.
fn error_of(alloc: Global, name: &str) -> Result<PcapError, AllocError> {
    Ok(match name {
        "lack" => PcapError::IncompleteBuffer(7),
        "field" => PcapError::InvalidField("x"),
        "writer" => PcapError::WriterFailed,
        "rule" => PcapError::from(Rule::CaptureMagic),
        "io" => PcapError::from(io::Error::from(ErrorKind::UnexpectedEof)),
        "memory" => PcapError::from(AllocError),
        "utf8" => of_utf8(),
        _ => of_owned_utf8(Vec::from_slice(alloc, &[0xff])?),
    })
}

// Returns whether the error of a row has its message, and its text or the beginning of it.
fn says(alloc: Global, row: &str) -> Result<bool, AllocError> {
    let (name, texts) = row.split_once(" => ").unwrap_or((row, ""));
    let (message, text) = texts.split_once(" => ").unwrap_or((texts, ""));
    let error = error_of(alloc, name.trim())?;
    let told = format!(in alloc; "{error}")?;
    Ok(told.as_str() == message && is_shown(alloc, &error, text))
}

#[test]
fn texts(rt: HostRuntime) -> Result<(), Fail> {
    let table = r#"
        lack => Need at least 7 more bytes => IncompleteBuffer(7)
        field => Invalid field value: x => InvalidField("x")
        writer => Writer failed earlier => WriterFailed
        rule => Invalid field value: PcapHeader wrong magic number => InvalidField("PcapHeader wrong magic number")
        io => Error reading bytes => IoError(..
        memory => Out of memory => OutOfMemory(..
        utf8 => UTF8 error => Utf8Error(..
        owned_utf8 => UTF8 error => FromUtf8Error(..
    "#;
    for row in filled(table)?.lines() {
        assert!(rt; says(rt.alloc(), row)?, "{row}");
    }
    Ok(())
}

#[test]
fn wrong_magic(rt: HostRuntime) {
    assert!(rt;
        matches!(
            PcapParser::new(&[0xff; 24]),
            Err(PcapError::InvalidField("PcapHeader wrong magic number"))
        )
    );
}

// Returns whether a text is this one, or begins with what is before `..`.
fn is_text(told: &str, text: &str) -> bool {
    match text.strip_suffix("..") {
        Some(text) => told.starts_with(text),
        None => told == text,
    }
}

/// Returns whether a value is formatted as this text, or as one that begins with what is before `..`.
pub fn is_shown<T: Debug>(alloc: Global, value: &T, text: &str) -> bool {
    match format!(in alloc; "{value:?}") {
        Ok(shown) => is_text(shown.as_str(), text),
        Err(_) => false,
    }
}

#[test]
fn debug_texts(rt: HostRuntime) {
    let alloc = rt.alloc();
    let header = PcapHeader {
        magic_number: 1,
        version_major: 2,
        version_minor: 4,
        ts_correction: 0,
        ts_accuracy: 0,
        snaplen: 5,
        datalink: DataLink::Unknown(6),
    };
    let text =
        "PcapHeader { magic_number: 1, version_major: 2, version_minor: 4, ts_correction: 0, ts_accuracy: 0, snaplen: 5, datalink: Unknown(6) }";
    assert!(rt; is_shown(alloc, &header, text));
    assert!(rt; is_shown(alloc, &Endianness::Big, "Big"));
    assert!(rt; is_shown(alloc, &TsResolution::NanoSecond, "NanoSecond"));
}

#[test]
fn debug_texts_of_packets(rt: HostRuntime) -> Result<(), Fail> {
    let text =
        "Packet { header: PacketHeader { ts_sec: 1, ts_nsec: 2, incl_len: 2, orig_len: 3 }, data_: Borrowed([5, 6]) }";
    assert!(rt; is_shown(rt.alloc(), &Packet::new(1, 2, &[5, 6], 3), text));
    let owned = Vec::from_slice(rt.alloc(), &[7])?;
    assert!(rt; is_shown(rt.alloc(), &CowBytes::Owned(owned), "Owned([7])"));
    Ok(())
}

#[test]
fn debug_texts_of_parsers_readers_and_writers(rt: HostRuntime) {
    let alloc = rt.alloc();
    let head = front(&BIG_HEAD, 24);
    let parser =
        "Ok(([], PcapParser { header: PcapHeader { magic_number: 2712847316, version_major: 2, version_minor: 4, ts_correction: 0, ts_accuracy: 0, snaplen: 65535, datalink: ETHERNET } }))";
    assert!(rt; is_shown(alloc, &PcapParser::new(head), parser));
    let reader = "Ok(PcapReader { header: PcapHeader { magic_number: 2712847316, ..";
    assert!(rt; is_shown(alloc, &PcapReader::new(alloc, head), reader));
    let writer = "Ok(PcapWriter { header: PcapHeader { magic_number: 3569595041, ..";
    assert!(rt; is_shown(alloc, &PcapWriter::new(Vec::new(alloc)), writer));
}
