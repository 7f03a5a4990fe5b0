//! Lenient reading of packet records: no packet is left out, and each one comes with its flaws.

ghost use Rattle.std.specs.Prelude.{◌≡◌, ◌≤◌, ◌<◌, ◌*◌, ◌+◌, IsTrue, MatchResult};
ghost use Rattle.std.specs.Duration.{as_nanos};
ghost use Rattle.pcap_core.specs.Answer.{Tells, number_in};
ghost use Rattle.pcap_core.specs.declared.rules.Rule.TheVariants.{IncludedTooLong};
ghost use Rattle.pcap_classic.specs.Magic.{is_magic, order_of, resolution_of};
ghost use Rattle.pcap_classic.specs.Parser.{header_of};
ghost use Rattle.pcap_classic.specs.PacketText.{Head, nanoseconds};
ghost use Rattle.pcap_tolerant.specs.AsIs.{breaks_one, flaws_of, rules_of, first_rule, raised, as_it_is, packet_with, AsIsSays, HeadAsIsSays};

use byteorder::{BigEndian, ByteOrder, LittleEndian};
use pcap_classic::TsResolution;
use pcap_classic::pcap::{PACKET_LIMIT, PcapHeader, PcapParser};
use pcap_core::fields::split_u32;
use pcap_core::rules::Rule;
use pcap_core::{Endianness, PcapError, ResultParsing};
use std::time::Duration;

/// The flaws of a packet: which of the four rules for packets it breaks. Each field is independent of the others.
#[derive(Clone, Copy, Debug, PartialEq, Eq)]
pub struct Flaws {
    /// V2: the fraction of the second is more than 32 bits of nanoseconds.
    pub fraction_too_large: bool,
    /// V3: the stored length is above 262144 bytes.
    pub included_too_long: bool,
    /// V4: the original length is above 262144 bytes.
    pub original_too_long: bool,
    /// V5: the stored length is above the original length.
    pub included_past_original: bool,
}

impl Flaws {
    /// Returns whether the packet breaks a rule.
    pub fn is_broken(&self) -> bool
        ensures { result ≡ breaks_one self.now }
    {
        self.fraction_too_large
            || self.included_too_long
            || self.original_too_long
            || self.included_past_original
    }

    /// Returns the first rule that the packet breaks, in the rules' order: the rule by which strict reading refuses it. Returns
    /// None if the packet breaks no rule.
    pub fn first(&self) -> Option<Rule>
        ensures { result ≡ first_rule (rules_of self.now) }
    {
        if self.fraction_too_large {
            return Some(Rule::FractionTooLarge);
        }
        if self.included_too_long {
            return Some(Rule::IncludedTooLong);
        }
        if self.original_too_long {
            return Some(Rule::OriginalTooLong);
        }
        if self.included_past_original {
            return Some(Rule::IncludedPastOriginal);
        }
        None
    }
}

// Returns the flaws of a head with these numbers, or V3 if the stored length is above the limit.
#[inline(always)]
fn flaws_in(
    ts_resolution: TsResolution,
    ts_sec: u32,
    fraction: u32,
    incl_len: u32,
    orig_len: u32,
    limit: u32,
) -> Result<Flaws, Rule>
    ensures { let head : Head = record { seconds = ts_sec; fraction = fraction; included = incl_len; original = orig_len } in
        MatchResult result
        (λ flaws. (incl_len ≤ raised limit) × (flaws ≡ flaws_of ts_resolution head))
        (λ rule. (raised limit < incl_len) × (rule ≡ IncludedTooLong)) }
{
    let nanos = match ts_resolution {
        TsResolution::NanoSecond => u64::from(fraction),
        TsResolution::MicroSecond => 1000 * u64::from(fraction),
    };
    // Nearly all packets break no rule and are below every limit. This branch decides that in fewer instructions.
    if nanos <= 4294967295 && orig_len <= PACKET_LIMIT && incl_len <= orig_len {
        return Ok(Flaws {
            fraction_too_large: false,
            included_too_long: false,
            original_too_long: false,
            included_past_original: false,
        });
    }
    if incl_len > limit.max(PACKET_LIMIT) {
        return Err(Rule::IncludedTooLong);
    }
    Ok(Flaws {
        fraction_too_large: nanos > 4294967295,
        included_too_long: incl_len > PACKET_LIMIT,
        original_too_long: orig_len > PACKET_LIMIT,
        included_past_original: incl_len > orig_len,
    })
}

/// The head of a packet read leniently: its four numbers as written, and the rules that they break.
#[derive(Clone, Copy, Debug, PartialEq, Eq)]
pub struct HeadAsIs {
    /// The time in seconds since 1970.
    pub ts_sec: u32,
    /// The fraction of the second, in the capture's resolution: microseconds or nanoseconds. It may be more than one second.
    pub fraction: u32,
    /// The number of stored bytes of the packet.
    pub incl_len: u32,
    /// The number of bytes that the packet had on the wire, as its head states. It may be less than the stored length.
    pub orig_len: u32,
    /// The rules that the packet breaks.
    pub flaws: Flaws,
}

impl HeadAsIs {
    /// Reads the packet head at the front of a slice, and returns what follows it and the head.
    ///
    /// Returns `IncompleteBuffer` for fewer than 16 bytes. Returns `InvalidField` by V3 if the stored length is above the
    /// limit, in bytes, since the end of such a packet can't be trusted. A limit below 262144 counts as 262144. No other rule
    /// causes an error.
    #[inline(always)]
    pub fn from_slice<B: ByteOrder>(
        slice: &[u8],
        ts_resolution: TsResolution,
        limit: u32,
    ) -> ResultParsing<(&[u8], HeadAsIs)>
        ensures tells { Tells (HeadAsIsSays (raised limit) B.number_of ts_resolution slice.now) (λ head. head) result }
    {
        if slice.len() < 16 {
            return Err(PcapError::IncompleteBuffer(16 - slice.len()));
        }
        let (ts_sec, rest) = split_u32::<B>(slice);
        let (fraction, rest) = split_u32::<B>(rest);
        let (incl_len, rest) = split_u32::<B>(rest);
        let (orig_len, rest) = split_u32::<B>(rest);
        let flaws = flaws_in(ts_resolution, ts_sec, fraction, incl_len, orig_len, limit)?;
        let head = HeadAsIs {
            ts_sec,
            fraction,
            incl_len,
            orig_len,
            flaws,
        };
        Ok((rest, head))
    }

    /// Returns the packet with this head and these bytes.
    #[inline(always)]
    pub fn packet<'a>(&self, bytes: &'a [u8]) -> PacketAsIs<'a>
        ensures { as_it_is result ≡ packet_with self.now bytes.now }
    {
        PacketAsIs {
            ts_sec: self.ts_sec,
            fraction: self.fraction,
            incl_len: self.incl_len,
            orig_len: self.orig_len,
            flaws: self.flaws,
            data: bytes,
        }
    }
}

/// A packet read leniently: the four numbers of its head as written, the rules that they break, and its bytes.
#[derive(Clone, Copy, Debug)]
pub struct PacketAsIs<'a> {
    /// The time in seconds since 1970.
    pub ts_sec: u32,
    /// The fraction of the second, in the capture's resolution: microseconds or nanoseconds. It may be more than one second.
    pub fraction: u32,
    /// The number of stored bytes of the packet.
    pub incl_len: u32,
    /// The number of bytes that the packet had on the wire, as its head states. It may be less than the stored length.
    pub orig_len: u32,
    /// The rules that the packet breaks.
    pub flaws: Flaws,
    /// The stored bytes of the packet, `incl_len` of them.
    pub data: &'a [u8],
}

impl<'a> PacketAsIs<'a> {
    /// Reads the packet at the front of a slice leniently, and returns what follows it and the packet. The slice lends the
    /// packet's bytes.
    ///
    /// Returns `IncompleteBuffer` with the number of missing bytes, first of the head and then of the data. Returns
    /// `InvalidField` by V3 if the stored length is above the limit, in bytes, since the end of such a packet can't be trusted.
    /// A limit below 262144 counts as 262144. No other rule causes an error.
    pub fn from_slice<B: ByteOrder>(
        slice: &'a [u8],
        ts_resolution: TsResolution,
        limit: u32,
    ) -> ResultParsing<(&'a [u8], PacketAsIs<'a>)>
        ensures tells { Tells (AsIsSays (raised limit) B.number_of ts_resolution slice.now) as_it_is result }
    {
        let (rest, head) = HeadAsIs::from_slice::<B>(slice, ts_resolution, limit)?;
        let len = head.incl_len as usize;
        if rest.len() < len {
            return Err(PcapError::IncompleteBuffer(len - rest.len()));
        }
        let (data, rest) = rest.split_at(len);
        Ok((rest, head.packet(data)))
    }

    /// Returns the packet's time by the capture's resolution: the seconds, and the fraction carried into them. The time is
    /// exact for every fraction, even for a fraction that is a flaw.
    pub fn timestamp(&self, ts_resolution: TsResolution) -> Duration
        ensures { as_nanos result ≡ self.now.ts_sec * 1_000_000_000 + nanoseconds ts_resolution self.now.fraction }
    {
        match ts_resolution {
            TsResolution::NanoSecond => Duration::new(self.ts_sec.into(), self.fraction),
            TsResolution::MicroSecond => {
                let seconds = u64::from(self.ts_sec) + u64::from(self.fraction / 1_000_000);
                Duration::new(seconds, 1000 * (self.fraction % 1_000_000))
            }
        }
    }
}

// Reads the packet at the front of a slice leniently under this header, and returns what follows it and the packet.
#[inline(always)]
fn as_is_under<'a>(
    header: &PcapHeader,
    slice: &'a [u8],
    limit: u32,
) -> ResultParsing<(&'a [u8], PacketAsIs<'a>)>
    requires { IsTrue (is_magic header.now.magic_number) }
    ensures tells { let magic = header.now.magic_number in
        Tells (AsIsSays (raised limit) (number_in (order_of magic)) (resolution_of magic) slice.now) as_it_is result }
{
    let ts_resolution = header.ts_resolution();
    match header.endianness() {
        Endianness::Big => PacketAsIs::from_slice::<BigEndian>(slice, ts_resolution, limit),
        Endianness::Little => PacketAsIs::from_slice::<LittleEndian>(slice, ts_resolution, limit),
    }
}

/// Reads the next packet of the parser's capture from the front of a slice leniently, and returns what follows it and the
/// packet. The slice lends the packet's bytes.
///
/// Returns `IncompleteBuffer` with the number of missing bytes, first of the head (16 for an empty slice) and then of the data.
/// Returns `InvalidField` by V3 if the stored length is above the limit, in bytes. A limit below 262144 counts as 262144. Where
/// `next_packet` of the parser returns a packet, this returns the same packet without a flaw. Where `next_packet` refuses a
/// packet by a rule, this returns that packet and the rule is its first flaw, unless the stored length is above the limit or
/// data are missing.
#[inline(always)]
pub fn next_packet_as_is<'a>(
    parser: &PcapParser,
    slice: &'a [u8],
    limit: u32,
) -> ResultParsing<(&'a [u8], PacketAsIs<'a>)>
    ensures tells { let magic = (header_of parser.now).magic_number in
        Tells (AsIsSays (raised limit) (number_in (order_of magic)) (resolution_of magic) slice.now) as_it_is result }
{
    as_is_under(parser.header(), slice, limit)
}
