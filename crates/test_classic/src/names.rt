//! The names of packets and errors in the rows.

use pcap_classic::pcap::{Packet, PacketHeader, PcapHeader};
use pcap_classic::{PcapError, ResultParsing};
use std::io;
use std::io::ErrorKind;

/// Returns the name of a kind.
pub fn name_of_kind(kind: ErrorKind) -> &'static str {
    match kind {
        ErrorKind::UnexpectedEof => "UnexpectedEof",
        ErrorKind::Interrupted => "Interrupted",
        ErrorKind::TimedOut => "TimedOut",
        ErrorKind::WriteZero => "WriteZero",
        ErrorKind::Other => "Other",
        _ => "another_kind",
    }
}

/// Returns the kind of this name.
pub fn kind_of(name: &str) -> Option<ErrorKind> {
    match name {
        "Interrupted" => Some(ErrorKind::Interrupted),
        "TimedOut" => Some(ErrorKind::TimedOut),
        _ => None,
    }
}

/// Returns the kind of an I/O error, a word for the message of an `InvalidField`, or `WriterFailed`.
pub fn name_of(error: &PcapError) -> &'static str {
    match error {
        PcapError::IoError(error) => name_of_kind(error.kind()),
        PcapError::InvalidField("PcapHeader wrong magic number") => "magic",
        PcapError::InvalidField("PacketHeader incl_len > orig_len") => "length",
        PcapError::WriterFailed => "WriterFailed",
        _ => "another_error",
    }
}

/// Returns the name of the error that ended a run, or `end`.
pub fn name_of_fault(fault: &Option<PcapError>) -> &'static str {
    match fault {
        Some(error) => name_of(error),
        None => "end",
    }
}

/// Returns the name of the error of a call, or `given`.
pub fn name_of_outcome<T>(outcome: &ResultParsing<T>) -> &'static str {
    match outcome {
        Err(error) => name_of(error),
        Ok(_) => "given",
    }
}

/// Does the same for a value that is `another` if it isn't the expected one.
pub fn name_of_value<T: PartialEq>(outcome: &ResultParsing<T>, expected: &T) -> &'static str {
    match outcome {
        Err(error) => name_of(error),
        Ok(value) if value == expected => "given",
        Ok(_) => "another",
    }
}

/// Returns whether these are the bytes of the capture's packet.
pub fn are_contents(bytes: &[u8]) -> bool {
    for (k, byte) in bytes.iter().enumerate() {
        if usize::from(*byte) != k {
            return false;
        }
    }
    bytes.len() == 98
}

/// Returns the header of the capture's packet.
pub fn packet_header() -> PacketHeader {
    PacketHeader::new(0x4fa11b29, 152_630_000, 98, 98)
}

/// Returns `packet` for the capture's packet, `fine` if its microseconds were read as nanoseconds, and `empty` for the packet of the
/// capture `cut`, which has no bytes. A packet that lends its bytes is `lent`.
pub fn name_of_packet(packet: &Packet<'_>) -> &'static str {
    let is_whole = are_contents(packet.data_.as_slice());
    let is_first = packet.header == packet_header();
    if packet.data_.is_borrowed() {
        if is_whole && is_first {
            "lent"
        } else {
            "another_lent"
        }
    } else if is_whole && is_first {
        "packet"
    } else if is_whole && packet.header == PacketHeader::new(0x4fa11b29, 152_630, 98, 98) {
        "fine"
    } else if packet.data_.is_empty() && packet.header == PacketHeader::new(1, 0, 0, 0) {
        "empty"
    } else {
        "another_packet"
    }
}

/// Returns the name of what a reader gives.
pub fn name_of_item(item: &Option<ResultParsing<Packet<'static>>>) -> &'static str {
    match item {
        None => "end",
        Some(Ok(packet)) => name_of_packet(packet),
        Some(Err(error)) => name_of(error),
    }
}

/// Returns whether this is the name of a failed call, and not that of an early end.
pub fn is_failure(name: &str) -> bool {
    matches!(name, "Other" | "Interrupted" | "TimedOut")
}

/// Returns whether a call on a stream or a writer took this number of bytes, or failed with an error of this kind.
pub fn is_taken(outcome: &io::Result<usize>, told: &str) -> bool {
    match outcome {
        Ok(taken) => told.parse::<usize>().ok() == Some(*taken),
        Err(error) => told == name_of_kind(error.kind()),
    }
}
