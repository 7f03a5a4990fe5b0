//! The bytes for the calls.

/// A big-endian capture of one packet of four bytes.
pub(crate) const CAPTURE: [u8; 44] = [
    0xa1, 0xb2, 0xc3, 0xd4, 0, 2, 0, 4, 0, 0, 0, 0, 0, 0, 0, 0, 0, 0, 0xff, 0xff, 0, 0, 0, 1, 0, 0,
    0, 1, 0, 0, 0, 2, 0, 0, 0, 4, 0, 0, 0, 4, 1, 2, 3, 4,
];

/// A section with nine options: four texts "hi", a custom text, custom bytes, an unknown one, and two comments.
pub(crate) const SECTION: [u8; 96] = [
    0x1a, 0x2b, 0x3c, 0x4d, 0, 1, 0, 0, 0, 0, 0, 0, 0, 0, 0, 8, 0, 1, 0, 2, 0x68, 0x69, 0, 0, 0, 2,
    0, 2, 0x68, 0x69, 0, 0, 0, 3, 0, 2, 0x68, 0x69, 0, 0, 0, 4, 0, 2, 0x68, 0x69, 0, 0, 0x0b, 0xac,
    0, 6, 0, 0, 0, 7, 0x68, 0x69, 0, 0, 0x0b, 0xad, 0, 6, 0, 0, 0, 7, 0x68, 0x69, 0, 0, 0, 99, 0,
    1, 9, 0, 0, 0, 0, 1, 0, 2, 0x68, 0x69, 0, 0, 0, 1, 0, 2, 0x68, 0x69, 0, 0,
];

/// An interface with the name "hi" and an unknown option.
pub(crate) const INTERFACE: [u8; 24] = [
    0, 1, 0, 0, 0, 4, 0, 0, 0, 2, 0, 2, 0x68, 0x69, 0, 0, 0, 99, 0, 1, 9, 0, 0, 0,
];

/// A packet of one byte, with the comment "hi".
pub(crate) const PACKET: [u8; 32] = [
    0, 0, 0, 0, 0, 0, 0, 1, 0, 0, 0, 2, 0, 0, 0, 1, 0, 0, 0, 1, 9, 0, 0, 0, 0, 1, 0, 2, 0x68, 0x69,
    0, 0,
];

/// Two names for an address, an unknown record, and the comment "hi" after the records.
pub(crate) const NAMES: [u8; 32] = [
    0, 1, 0, 8, 10, 0, 0, 1, 0x61, 0, 0x62, 0, 0, 7, 0, 1, 9, 0, 0, 0, 0, 0, 0, 0, 0, 1, 0, 2,
    0x68, 0x69, 0, 0,
];

/// Statistics with the comment "hi".
pub(crate) const STATISTICS: [u8; 20] = [
    0, 0, 0, 0, 0, 0, 0, 1, 0, 0, 0, 2, 0, 1, 0, 2, 0x68, 0x69, 0, 0,
];

/// The comments "hi" and "ho".
pub(crate) const COMMENTS: [u8; 16] = [0, 1, 0, 2, 0x68, 0x69, 0, 0, 0, 1, 0, 2, 0x68, 0x6f, 0, 0];

/// An enterprise number and "hi".
pub(crate) const CUSTOM: [u8; 6] = [0, 0, 0, 7, 0x68, 0x69];

/// An address of four bytes and the names "a" and "b".
pub(crate) const IPV4: [u8; 8] = [10, 0, 0, 1, 0x61, 0, 0x62, 0];

/// An address of 16 bytes and the name "a".
pub(crate) const IPV6: [u8; 18] = [0, 0, 0, 0, 0, 0, 0, 0, 0, 0, 0, 0, 0, 0, 0, 1, 0x61, 0];

/// A record of an address of 16 bytes and the name "a".
pub(crate) const IPV6_RECORD: [u8; 24] = [
    0, 2, 0, 18, 0, 0, 0, 0, 0, 0, 0, 0, 0, 0, 0, 0, 0, 0, 0, 1, 0x61, 0, 0, 0,
];

/// A record of an unknown type.
pub(crate) const UNKNOWN_RECORD: [u8; 8] = [0, 9, 0, 1, 0xaa, 0, 0, 0];

/// A block of an interface with the name "a".
pub(crate) const INTERFACE_BLOCK: [u8; 32] = [
    0, 0, 0, 1, 0, 0, 0, 0x20, 0, 1, 0, 0, 0, 4, 0, 0, 0, 2, 0, 1, 0x61, 0, 0, 0, 0, 0, 0, 0, 0, 0,
    0, 0x20,
];

/// A block of a little-endian section with the comment "hi".
pub(crate) const SECTION_BLOCK: [u8; 36] = [
    0xa, 0xd, 0xd, 0xa, 0x24, 0, 0, 0, 0x4d, 0x3c, 0x2b, 0x1a, 1, 0, 0, 0, 0xff, 0xff, 0xff, 0xff,
    0xff, 0xff, 0xff, 0xff, 1, 0, 2, 0, 0x68, 0x69, 0, 0, 0x24, 0, 0, 0,
];

/// A big-endian section with the comment "hi", an interface with the name "a", and a packet of four bytes with that comment.
pub(crate) const BLOCKS: [u8; 112] = [
    0xa, 0xd, 0xd, 0xa, 0, 0, 0, 0x24, 0x1a, 0x2b, 0x3c, 0x4d, 0, 1, 0, 0, 0xff, 0xff, 0xff, 0xff,
    0xff, 0xff, 0xff, 0xff, 0, 1, 0, 2, 0x68, 0x69, 0, 0, 0, 0, 0, 0x24, 0, 0, 0, 1, 0, 0, 0, 0x20,
    0, 1, 0, 0, 0, 4, 0, 0, 0, 2, 0, 1, 0x61, 0, 0, 0, 0, 0, 0, 0, 0, 0, 0, 0x20, 0, 0, 0, 6, 0, 0,
    0, 0x2c, 0, 0, 0, 0, 0, 0, 0, 0, 0, 0, 0, 1, 0, 0, 0, 4, 0, 0, 0, 4, 1, 2, 3, 4, 0, 1, 0, 2,
    0x68, 0x69, 0, 0, 0, 0, 0, 0x2c,
];

/// `BLOCKS` as written from their values, with an end mark after each list of options.
pub(crate) const WRITTEN: [u8; 120] = [
    0x0a, 0x0d, 0x0d, 0x0a, 0, 0, 0, 0x28, 0x1a, 0x2b, 0x3c, 0x4d, 0, 1, 0, 0, 0xff, 0xff, 0xff,
    0xff, 0xff, 0xff, 0xff, 0xff, 0, 1, 0, 2, 0x68, 0x69, 0, 0, 0, 0, 0, 0, 0, 0, 0, 0x28, 0, 0, 0,
    1, 0, 0, 0, 0x20, 0, 1, 0, 0, 0, 4, 0, 0, 0, 2, 0, 1, 0x61, 0, 0, 0, 0, 0, 0, 0, 0, 0, 0, 0x20,
    0, 0, 0, 6, 0, 0, 0, 0x30, 0, 0, 0, 0, 0, 0, 0, 0, 0, 0, 0, 1, 0, 0, 0, 4, 0, 0, 0, 4, 1, 2, 3,
    4, 0, 1, 0, 2, 0x68, 0x69, 0, 0, 0, 0, 0, 0, 0, 0, 0, 0x30,
];

/// `CAPTURE` as blocks: a little-endian section, an interface in nanoseconds, and the packet.
pub(crate) const CONVERTED: [u8; 96] = [
    0x0a, 0x0d, 0x0d, 0x0a, 0x1c, 0, 0, 0, 0x4d, 0x3c, 0x2b, 0x1a, 1, 0, 0, 0, 0xff, 0xff, 0xff,
    0xff, 0xff, 0xff, 0xff, 0xff, 0x1c, 0, 0, 0, 1, 0, 0, 0, 0x20, 0, 0, 0, 1, 0, 0, 0, 0xff, 0xff,
    0, 0, 9, 0, 1, 0, 9, 0, 0, 0, 0, 0, 0, 0, 0x20, 0, 0, 0, 6, 0, 0, 0, 0x24, 0, 0, 0, 0, 0, 0, 0,
    0, 0, 0, 0, 0xd0, 0xd1, 0x9a, 0x3b, 4, 0, 0, 0, 4, 0, 0, 0, 1, 2, 3, 4, 0x24, 0, 0, 0,
];

/// `BLOCKS` after the header of `CAPTURE`: the packet, a microsecond after 1970.
pub(crate) const PACKETS: [u8; 44] = [
    0xa1, 0xb2, 0xc3, 0xd4, 0, 2, 0, 4, 0, 0, 0, 0, 0, 0, 0, 0, 0, 0, 0xff, 0xff, 0, 0, 0, 1, 0, 0,
    0, 0, 0, 0, 0, 1, 0, 0, 0, 4, 0, 0, 0, 4, 1, 2, 3, 4,
];
