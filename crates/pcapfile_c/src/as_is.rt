//! Reads the packets of classic captures leniently: malformed ones too, with the rules that they break.

ghost use Rattle.std.specs.Prelude.{◌≡◌, false, IsTrue};
ghost use Rattle.std.specs.Option.{MatchOption};
ghost use Rattle.pcap_classic.specs.Magic.{is_magic, resolution_of};
ghost use Rattle.pcap_classic.specs.Parser.{header_of};
ghost use Rattle.pcap_tolerant.specs.AsIs.{rules_of, first_rule, as_it_is};
ghost use Rattle.pcapfile_values.specs.Shown.{shown_header};
ghost use Rattle.pcapfile_c.specs.AsIs.{bits_of, number_or_0, ShowsAsIs, AsIsSaid, TellsPlace, PacketsStandAgain};
ghost use Rattle.pcapfile_c.specs.Calls.{Takes, RefusesMagic};
ghost use Rattle.pcapfile_c.specs.Readers.{reader};

use pcap_classic::TsResolution;
use pcap_classic::pcap::PcapParser;
use pcap_core::rules::Rule;
use pcap_tolerant::resync::resync;
use pcap_tolerant::{Flaws, PacketAsIs, next_packet_as_is};
use pcapfile_values::bodies::PcapfileTime;
use pcapfile_values::errors::{PcapfileError, tell, tell_broken};
use pcapfile_values::shown::{PcapfileBytes, PcapfileHeader};

/// A packet that lenient reading returns, whose bytes are borrowed from its capture. In C: `pcapfile_packet_as_is`.
#[repr(C)]
#[derive(Clone, Copy)]
pub struct PcapfilePacketAsIs<'a> {
    /// The time in seconds since 1970, as written in the capture.
    pub ts_sec: u32,
    /// The fraction of the second in the capture's timestamp resolution, as written in the capture.
    pub ts_fraction: u32,
    /// The original length in bytes, as written in the capture.
    pub orig_len: u32,
    /// The rules that the packet breaks: bit n is set for the rule of number n.
    pub flaws: u32,
    /// The number of the first rule that the packet breaks, or 0 if it breaks none.
    pub first_flaw: u32,
    /// The time of the packet, which is exact even if its fraction is a second or more.
    pub time: PcapfileTime,
    /// The stored bytes of the packet.
    pub bytes: &'a [u8],
}

/// Reads the packet at the front of `left` leniently, after a capture's header. Refuses it only if bytes are missing or its stored length
/// is above `limit`. A limit below 262144 bytes counts as 262144.
#[unsafe(no_mangle)]
pub extern "C" fn pcapfile_take_packet_as_is<'a>(
    header: &PcapfileHeader,
    left: &mut PcapfileBytes<'a>,
    limit: u32,
    packet: &mut PcapfilePacketAsIs<'a>,
    error: &mut PcapfileError,
) -> i32
    ensures taken { IsTrue (is_magic header.now.magic_number) →
        Takes (AsIsSaid limit header.now.magic_number) (ShowsAsIs (resolution_of header.now.magic_number)) (reader left.old packet.old error.old)
        (reader left.new packet.new error.new) result }
    ensures refused { is_magic header.now.magic_number ≡ false → RefusesMagic left.old left.new packet.old packet.new error.new result }
{
    let Some(parser) = parser_behind(header) else {
        return tell_broken(Rule::CaptureMagic, error);
    };
    match next_packet_as_is(&parser, left.bytes, limit) {
        Ok((rest, found)) => {
            *packet = PcapfilePacketAsIs::new(found, parser.header().ts_resolution());
            left.bytes = rest;
            0
        }
        Err(e) => tell(&e, error),
    }
}

/// Finds the first place in `bytes` where the packet records of a capture with this header resume. From there, `row` packet records with
/// data follow that break no rule, or fewer, at least one, up to the end of `bytes`.
#[unsafe(no_mangle)]
pub extern "C" fn pcapfile_resync(
    header: &PcapfileHeader,
    bytes: &PcapfileBytes<'_>,
    row: usize,
    place: &mut usize,
    error: &mut PcapfileError,
) -> i32
    ensures told { IsTrue (is_magic header.now.magic_number) →
        TellsPlace (PacketsStandAgain header.now.magic_number row bytes.now.bytes.now) place.old place.new error.old error.new result }
    ensures refused { is_magic header.now.magic_number ≡ false → RefusesMagic bytes.now bytes.now place.old place.new error.new result }
{
    let Some(parser) = parser_behind(header) else {
        return tell_broken(Rule::CaptureMagic, error);
    };
    match resync(&parser, bytes.bytes, row) {
        Some(found) => {
            *place = found;
            0
        }
        None => 8,
    }
}

// Returns the parser of the packets after a header, or None if its magic number is none of the four.
pub(crate) fn parser_behind(header: &PcapfileHeader) -> Option<PcapParser>
    ensures { let magic = header.now.magic_number in
        MatchOption result (is_magic magic ≡ false) (λ parser. IsTrue (is_magic magic) × ((header_of parser).magic_number ≡ magic) × (shown_header (header_of parser) ≡ header.now)) }
{
    PcapParser::with_header(header.header()).ok()
}

impl<'a> PcapfilePacketAsIs<'a> {
    // Returns the struct for a packet from lenient reading, in a capture of this timestamp resolution.
    fn new(packet: PacketAsIs<'a>, ts_resolution: TsResolution) -> PcapfilePacketAsIs<'a>
        ensures { ShowsAsIs ts_resolution (as_it_is packet.entry) result }
    {
        let time = packet.timestamp(ts_resolution);
        PcapfilePacketAsIs {
            ts_sec: packet.ts_sec,
            ts_fraction: packet.fraction,
            orig_len: packet.orig_len,
            flaws: flaw_bits(packet.flaws),
            first_flaw: first_flaw(packet.flaws),
            time: PcapfileTime {
                seconds: time.as_secs() as i64,
                nanoseconds: time.subsec_nanos(),
            },
            bytes: packet.data,
        }
    }
}

// Returns a number with the bit of each broken rule.
fn flaw_bits(flaws: Flaws) -> u32
    ensures { result ≡ bits_of (rules_of flaws) }
{
    let mut bits = 0;
    if flaws.fraction_too_large {
        bits += 4;
    }
    if flaws.included_too_long {
        bits += 8;
    }
    if flaws.original_too_long {
        bits += 16;
    }
    if flaws.included_past_original {
        bits += 32;
    }
    bits
}

// Returns the number of the first broken rule, or 0 if there is none.
fn first_flaw(flaws: Flaws) -> u32
    ensures { result ≡ number_or_0 (first_rule (rules_of flaws)) }
{
    match flaws.first() {
        Some(rule) => rule.number(),
        None => 0,
    }
}
