//! Lines for the packets in blocks, read leniently.

ghost use Rattle.std.specs.Prelude.{◌≡◌, ◌++◌, map, codes, IfOk, OnOk, string_bytes, option_map};
ghost use Rattle.std.specs.Fmt.{decimal};
ghost use Rattle.pcap_blocks.specs.InterfaceDescription.{interface_of};
ghost use Rattle.pcap_blocks.specs.ParsedBlock.{EnhancedBody, OldPacketBody, SimpleBody, body_of as body_shown};
ghost use Rattle.pcap_ng.specs.Lent.{framed_around};
ghost use Rattle.pcap_tolerant_blocks.specs.EnhancedAsIs.{enhanced_in};
ghost use Rattle.pcap_tolerant_blocks.specs.Flaws.{fault_of, said_of};
ghost use Rattle.pcap_tolerant_blocks.specs.InForce.{known};
ghost use Rattle.pcap_tolerant_blocks.specs.PacketBlockAsIs.{packet_in as obsolete_in};
ghost use Rattle.pcap_tolerant_blocks.specs.SimpleAsIs.{simple_in};
ghost use Rattle.pcap_tolerant_captures.specs.ReaderAsIs.{state_of, body_of};
ghost use Rattle.pcap_program.specs.Lines.{WritesLine};
ghost use Rattle.pcapfile_run.specs.BlockPackets.{in_block};
ghost use Rattle.pcapfile_run.specs.PacketTexts.{IsPacketText};
ghost use Rattle.pcapfile_as_is.specs.Texts.{WritesTold};
ghost use Rattle.pcapfile_as_is.specs.BlockLists.{HoldsIf, IsListedBody, IsMarkedLine, described, ending, mark_of, packet_as_is};

use crate::block_teller::BlockTeller;
use crate::counted::{Spot, Told};
use pcap_file::pcapng::{BlockHeader, InterfaceDescriptionBlock, ParsedBlock};
use pcap_program::{Exit, ROOM, put_line};
use pcap_tolerant_blocks::{Broken, EnhancedAsIs, Flaw, PacketBlockAsIs, SimpleAsIs};
use pcap_tolerant_captures::{LentAsIs, PcapNgReaderAsIs};
use pcapfile_run::{BlockPacket, packet_in_body, put_packet};
use std::alloc::{AllocError, Global};
use std::io::Write;
use std::slice;

/// The size of a line whose packet has a few flaws, in bytes.
const LINE: usize = 2 * ROOM;

/// A writer of a line for each packet in a block, read leniently. The line is that of `pcapfile list`, with the time by the packet's
/// interface if that is known. After it come marks: ` !` and the number of each rule that the body breaks, ` !utf8` for a string that
/// isn't UTF-8, and ` !short` for a value that is too short. If a block has no room for its packet, the line is `index refused` with
/// the mark of its rule. Other blocks have no line and no number.
#[derive(Clone, Copy, Debug, Drop)]
pub struct BlockPacketLines;

// The body of a block that holds a packet, if the block has room for the packet, and the flaws of the body.
#[derive(Drop)]
struct BodyAsIs<'a> {
    body: Option<ParsedBlock<'a>>,
    flaws: Vec<Flaw>,
}

// Converts a block of one kind, read leniently, to a body with its flaws.
macro_rules! body_of_kind {
    ($read:ident, $Read:ident, $Body:ident) => {{
        let $Read { packet, flaws } = $read;
        let body = match packet {
            None => None,
            Some(packet) => Some(ParsedBlock::$Body(packet)),
        };
        BodyAsIs { body, flaws }
    }};
}

fn of_enhanced(read: EnhancedAsIs<'_>) -> BodyAsIs<'_>
    ensures body { option_map body_shown result.body ≡ option_map EnhancedBody (enhanced_in read.entry) }
    ensures flaws { result.flaws ≡ read.entry.flaws }
{
    body_of_kind!(read, EnhancedAsIs, EnhancedPacket)
}

fn of_obsolete(read: PacketBlockAsIs<'_>) -> BodyAsIs<'_>
    ensures body { option_map body_shown result.body ≡ option_map OldPacketBody (obsolete_in read.entry) }
    ensures flaws { result.flaws ≡ read.entry.flaws }
{
    body_of_kind!(read, PacketBlockAsIs, Packet)
}

fn of_simple(read: SimpleAsIs<'_>) -> BodyAsIs<'_>
    ensures body { option_map body_shown result.body ≡ option_map SimpleBody (simple_in read.entry) }
    ensures flaws { result.flaws ≡ read.entry.flaws }
{
    body_of_kind!(read, SimpleAsIs, SimplePacket)
}

// Returns the body of the block that a reader lends, if the block holds a packet.
fn body_lent<T>(
    reader: &PcapNgReaderAsIs<T>,
    header: BlockHeader,
) -> Result<Option<BodyAsIs<'_>>, AllocError>
    ensures { IfOk result (λ held. HoldsIf (framed_around header (body_of reader.now))
        (option_map (λ body. (option_map body_shown body.body, map said_of body.flaws.items)) held)) }
{
    if let Some(read) = reader.enhanced(header)? {
        return Ok(Some(of_enhanced(read)));
    }
    if let Some(read) = reader.packet_block(header)? {
        return Ok(Some(of_obsolete(read)));
    }
    match reader.simple(header)? {
        None => Ok(None),
        Some(read) => Ok(Some(of_simple(read))),
    }
}

// Returns the interface with this number, if it is known.
fn interface_known<T>(
    reader: &PcapNgReaderAsIs<T>,
    number: u32,
) -> Option<&InterfaceDescriptionBlock<'static>>
    ensures { option_map (λ interface. interface_of interface.now) result ≡ known number (described (state_of reader.now)) }
{
    match reader.parser() {
        None => None,
        Some(parser) => parser.interface(number),
    }
}

// Returns the packet in a body, given the first interface, if that is known.
fn packet_of<'a>(
    first: Option<&InterfaceDescriptionBlock<'static>>,
    body: &'a Option<ParsedBlock<'_>>,
) -> Option<BlockPacket<'a>>
    ensures { option_map in_block result ≡ packet_as_is (option_map (λ interface. interface_of interface.now) first.entry) (option_map body_shown body.now) }
{
    let Some(body) = body else {
        return None;
    };
    match first {
        None => packet_in_body(&[], body),
        Some(first) => packet_in_body(slice::from_ref(first), body),
    }
}

// Returns the mark of a flaw.
fn mark_made(alloc: Global, broken: Broken) -> Result<String, AllocError>
    ensures { IfOk result (λ mark. string_bytes mark ≡ mark_of (fault_of broken)) }
{
    match broken {
        Broken::Rule(rule) => {
            let number = rule.number();
            format!(in alloc; " !{number}")
        }
        Broken::NotUtf8 => String::from_str(alloc, " !utf8"),
        Broken::TooShort => String::from_str(alloc, " !short"),
    }
}

// Appends the end of a line, with the marks of these flaws.
fn push_ending(alloc: Global, line: &mut Vec<u8>, flaws: &[Flaw]) -> Result<(), AllocError>
    ensures { OnOk result (line.new.items ≡ line.old.items ++ ending (map said_of flaws.now)) }
{
    let mut marked = 0;
    while marked < flaws.len() {
        let mark = mark_made(alloc, flaws[marked].broken)?;
        line.extend_from_slice(mark.as_bytes())?;
        marked += 1;
    }
    line.extend_from_slice(b"\n")
}

// Returns the line of the packet with this number and this interface, if that is known.
fn packet_line(
    alloc: Global,
    number: u64,
    interface: Option<&InterfaceDescriptionBlock<'static>>,
    packet: BlockPacket,
    flaws: &[Flaw],
) -> Result<Vec<u8>, AllocError>
    ensures { IfOk result (λ line. IsPacketText (option_map (λ interface. interface_of interface.now) interface.entry) number (in_block packet.entry)
        (ending (map said_of flaws.now)) line.items) }
{
    let mut room = [0; ROOM];
    let start = put_packet(&mut room, ROOM, number, interface, packet);
    let mut line = Vec::with_capacity(alloc, LINE)?;
    line.extend_from_slice(&room[start..])?;
    push_ending(alloc, &mut line, flaws)?;
    Ok(line)
}

// Returns the line of the packet with this number if its block has no room for it.
fn refused_line(alloc: Global, number: u64, flaws: &[Flaw]) -> Result<Vec<u8>, AllocError>
    ensures { IfOk result (λ line. line.items ≡ decimal number ++ (codes " refused" ++ ending (map said_of flaws.now))) }
{
    let mut line = format!(in alloc; "{number} refused")?.into_bytes();
    push_ending(alloc, &mut line, flaws)?;
    Ok(line)
}

// Returns the line of the packet with this number in a body.
fn line_of<T>(
    alloc: Global,
    number: u64,
    reader: &PcapNgReaderAsIs<T>,
    held: &BodyAsIs<'_>,
) -> Result<Vec<u8>, AllocError>
    ensures { let interfaces = described (state_of reader.now) in
        IfOk result (λ line. IsMarkedLine interfaces number (packet_as_is (known 0 interfaces) (option_map body_shown held.now.body))
        (map said_of held.now.flaws.items) line.items) }
{
    let flaws = held.flaws.as_slice();
    match packet_of(interface_known(reader, 0), &held.body) {
        None => refused_line(alloc, number, flaws),
        Some(packet) => {
            let interface = interface_known(reader, packet.interface);
            packet_line(alloc, number, interface, packet, flaws)
        }
    }
}

// Writes the line of the packet with this number in a body.
fn put_line_of<T, W: Write>(
    alloc: Global,
    output: &mut W,
    number: u64,
    reader: &PcapNgReaderAsIs<T>,
    held: &BodyAsIs<'_>,
) -> Result<(), Exit>
    ensures { let interfaces = described (state_of reader.now) in
        WritesLine (IsMarkedLine interfaces number (packet_as_is (known 0 interfaces) (option_map body_shown held.now.body))
        (map said_of held.now.flaws.items)) (W.contents output.old) (W.contents output.new) result }
{
    let line = line_of(alloc, number, reader, held)?;
    put_line(output, line.as_slice())
}

// Writes that line, and returns whether the body has a flaw.
fn put_held<T, W: Write>(
    alloc: Global,
    output: &mut W,
    number: u64,
    reader: &PcapNgReaderAsIs<T>,
    held: &BodyAsIs<'_>,
) -> Result<Told, Exit>
    ensures { let interfaces = described (state_of reader.now) in
        WritesTold (IsListedBody interfaces number (option_map body_shown held.now.body) (map said_of held.now.flaws.items))
        (W.contents output.old) (W.contents output.new) result }
{
    put_line_of(alloc, output, number, reader, held)?;
    Ok(Told {
        has_number: true,
        has_flaw: !held.flaws.is_empty(),
    })
}

impl BlockTeller for BlockPacketLines {
    ghost use Rattle.pcapfile_as_is.specs.Texts.{WritesTold};
    ghost use Rattle.pcapfile_as_is.specs.BlockLists.{IsListed};

    ghost Setting = { Unit {0} };

    ghost setting = { λ lines. tt };

    ghost is_told = { λ setting. IsListed };

    fn put<T, W: Write>(
        &mut self,
        alloc: Global,
        output: &mut W,
        at: Spot,
        reader: &PcapNgReaderAsIs<T>,
        lent: &LentAsIs,
    ) -> Result<Told, Exit> {
        match body_lent(reader, lent.header)? {
            None => Ok(Told {
                has_number: false,
                has_flaw: !lent.flaws.as_slice().is_empty(),
            }),
            Some(held) => put_held(alloc, output, at.number, reader, &held),
        }
    }
}
