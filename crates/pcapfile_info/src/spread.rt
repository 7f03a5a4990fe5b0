//! The number of packets in each of a row of time spans.

ghost use Rattle.std.specs.Prelude.{◌+◌, ◌*◌, ◌^◌, ◌<◌, ◌≤◌};

/// The number of spans in a row.
pub const SPANS: usize = 64;

/// The number of packets in each of a row of consecutive time spans of one width. Span 0 begins in 1970.
#[derive(Clone, Copy, Debug, PartialEq, Eq)]
pub struct Spread {
    /// The width of a span, in nanoseconds.
    pub width: u64,
    /// The number of the first span that has a packet.
    pub first: u64,
    /// The number of the last span that has a packet, less than 64 after the first.
    pub last: u64,
    /// The number of packets in each span, at the index span number modulo 64.
    pub packets: [u64; SPANS],
    ghost wide: { 0 < width },
    ghost ordered: { first ≤ last },
    ghost few: { last < first + 64 },
    ghost bounded: { last * width < 2 ^ 64 },
}
