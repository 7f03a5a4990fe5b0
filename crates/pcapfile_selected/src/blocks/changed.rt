//! The packets of a PcapNg capture that are written after changes.

ghost use Rattle.std.specs.Prelude.{◌≡◌, IfErr, IfOk, map, option_map};
ghost use Rattle.std.specs.List.{slice_get};
ghost use Rattle.pcap_core.specs.Errors.{IsMemory};
ghost use Rattle.pcap_blocks.specs.InterfaceDescription.{interface_of};
ghost use Rattle.pcap_blocks.specs.ParsedBlock.{body_of};
ghost use Rattle.pcap_ng.specs.Frames.{framed_of};
ghost use Rattle.pcap_ng.specs.Lent.{body_in};
ghost use Rattle.pcap_ng.specs.RawBlocks.{raw_in};
ghost use Rattle.pcap_ng.specs.Reader.{interfaces_in_force, text_of as text_in};
ghost use Rattle.pcap_written.specs.Raw.{raw_of};
ghost use Rattle.pcapfile_run.specs.BlockPackets.{packet_in};
ghost use Rattle.pcapfile_cut.specs.MovedBlocks.{text_of};
ghost use Rattle.pcapfile_cut.specs.ShortBlocks.{NotesFailure};
ghost use Rattle.pcapfile_selected.specs.Changing.{AsksSame, IsLongerSimple, IsShiftOn, MovesBlock, MovesHeld, MovesIf, PutsChanged, PutsWithin, is_longer, most_in, raw_behind, text_moved};

use super::judging::parsed_in;
use pcap_file::pcapng::{
    Block, BlockType, InterfaceDescriptionBlock, ParsedBlock, RawBlock, RawPcapNgBlock,
};
use pcap_file::{PcapNgReader, ResultParsing};
use pcap_items::stream::put;
use pcapfile_cut::{Changes, Moved, Moving, Shift, Shortened, Shortening};
use pcapfile_run::{holds_packet, interface_at, packet_in_body};
use std::alloc::Global;
use std::io::Write;

/// A block that a reader lends.
#[derive(Clone, Copy)]
pub(crate) struct Lent<'a> {
    /// The interfaces of its section.
    pub(crate) interfaces: &'a [InterfaceDescriptionBlock<'static>],
    /// The block.
    pub(crate) block: &'a Block<'a>,
    /// All bytes of the block.
    pub(crate) text: &'a [u8],
}

/// Returns a block that this reader lends.
pub(crate) fn lent_block<'a, R>(reader: &'a PcapNgReader<R>, block: &'a Block<'a>) -> Lent<'a>
    ensures interfaces { map interface_of result.interfaces.now ≡ interfaces_in_force reader.now }
    ensures block { result.block.now ≡ block.now }
    ensures text { result.text.now ≡ text_in reader.now }
{
    Lent {
        interfaces: reader.interfaces(),
        block,
        text: reader.text(),
    }
}

/// The changes of the blocks that are written.
#[derive(Drop)]
pub(crate) struct Changing {
    pub(crate) shift: Option<Shift>,
    pub(crate) moving: Moving,
    pub(crate) shortening: Option<Shortening>,
}

/// What the changes did to a block.
#[derive(Clone, Copy)]
pub(crate) struct Changed {
    pub(crate) moved: Moved,
    /// `None` if no number of bytes is given.
    pub(crate) shortened: Option<Shortened>,
}

impl Changing {
    /// Returns these changes, before any block.
    pub(crate) fn new(alloc: Global, changes: Changes) -> Changing
        ensures shift { result.shift ≡ changes.shift }
        ensures most { most_in result.shortening ≡ changes.snaplen }
    {
        let Changes { snaplen, shift, .. } = changes;
        Changing {
            shift,
            moving: Moving::new(alloc),
            shortening: match snaplen {
                Some(most) => Some(Shortening::new(alloc, most)),
                None => None,
            },
        }
    }

    /// Writes a lent block after the changes.
    ///
    /// `OutOfMemory` if there is no memory for the changed block or for its options. `IoError` if a write failed; then a beginning of
    /// the changed block was written.
    pub(crate) fn put<W: Write>(
        &mut self,
        alloc: Global,
        lent: Lent<'_>,
        output: &mut W,
        has_failed: &mut bool,
    ) -> ResultParsing<Changed>
        ensures puts { PutsChanged self.old (map interface_of lent.entry.interfaces.now) (framed_of lent.entry.block.now) lent.entry.text.now
            (W.contents output.old) (W.contents output.new) result }
        ensures asks { AsksSame self.old self.new }
        ensures noted { NotesFailure has_failed.old has_failed.new result }
    {
        let moved = self.move_packet(alloc, lent)?;
        let Changing {
            moving,
            shortening,
            ..
        } = self;
        let text = text_after(moved, lent.text, moving.text());
        let block = raw_in_text(lent.block, text);
        let shortened = put_within(shortening, block, text, output, has_failed)?;
        Ok(Changed { moved, shortened })
    }

    /// Returns whether a lent block is a simple packet with more stored bytes than are written of other packets.
    ///
    /// `OutOfMemory` if there is no memory for the options of the block.
    pub(crate) fn leaves_longer(&self, alloc: Global, lent: Lent<'_>) -> ResultParsing<bool>
        ensures leaves { IfOk result (λ is. IsLongerSimple (most_in self.now.shortening) (map interface_of lent.entry.interfaces.now)
            (framed_of lent.entry.block.now) is) }
        ensures memory { IfErr result IsMemory }
    {
        let Some(shortening) = &self.shortening else {
            return Ok(false);
        };
        if lent.block.type_ != BlockType::SimplePacket {
            return Ok(false);
        }
        match parsed_in(alloc, lent.block)? {
            None => Ok(false),
            Some(parsed) => Ok(is_longer(shortening.most(), lent.interfaces, &parsed)),
        }
    }

    // Moves the time of a lent block's packet, if that is asked for.
    fn move_packet(&mut self, alloc: Global, lent: Lent<'_>) -> ResultParsing<Moved>
        ensures moves { IfOk result (λ moved. MovesIf self.old.shift (map interface_of lent.entry.interfaces.now) (framed_of lent.entry.block.now)
            (text_of self.new.moving) moved) }
        ensures shift { self.new.shift ≡ self.old.shift }
        ensures shortening { self.new.shortening ≡ self.old.shortening }
        ensures memory { IfErr result IsMemory }
    {
        let Some(shift) = self.shift else {
            return Ok(Moved::Untimed);
        };
        if !holds_packet(lent.block.type_) {
            return Ok(Moved::Untimed);
        }
        move_block(alloc, lent, shift, &mut self.moving)
    }
}

// Returns whether the packet in a body has more than so many bytes.
fn is_longer(
    most: u32,
    interfaces: &[InterfaceDescriptionBlock<'static>],
    parsed: &ParsedBlock<'_>,
) -> bool
    ensures { result ≡ is_longer most (packet_in (map interface_of interfaces.now) (body_of parsed.now)) }
{
    match packet_in_body(interfaces, parsed) {
        None => false,
        Some(packet) => packet.bytes.len() > most as usize,
    }
}

// Moves the time of a lent block's packet.
fn move_block(
    alloc: Global,
    lent: Lent<'_>,
    shift: Shift,
    moving: &mut Moving,
) -> ResultParsing<Moved>
    ensures moves { IfOk result (λ moved. MovesBlock shift (map interface_of lent.entry.interfaces.now) (framed_of lent.entry.block.now)
        (text_of moving.new) moved) }
    ensures memory { IfErr result IsMemory }
{
    match parsed_in(alloc, lent.block)? {
        None => Ok(Moved::Malformed),
        Some(parsed) => move_body(lent, &parsed, shift, moving),
    }
}

// Moves the time of the packet in a lent block's body.
fn move_body(
    lent: Lent<'_>,
    parsed: &ParsedBlock<'_>,
    shift: Shift,
    moving: &mut Moving,
) -> ResultParsing<Moved>
    ensures moves { IfOk result (λ moved. MovesHeld shift (map interface_of lent.entry.interfaces.now)
        (packet_in (map interface_of lent.entry.interfaces.now) (body_of parsed.now)) (raw_in (framed_of lent.entry.block.now)) (text_of moving.new) moved) }
    ensures memory { IfErr result IsMemory }
{
    let Some(packet) = packet_in_body(lent.interfaces, parsed) else {
        return Ok(Moved::Malformed);
    };
    let units = shift_on(shift, interface_at(lent.interfaces, packet.interface));
    Ok(moving.pass(lent.block.raw(), units)?)
}

// Returns a change of times in units of an interface's clock, if it is a whole number of units and the interface is described.
fn shift_on(shift: Shift, interface: Option<&InterfaceDescriptionBlock<'static>>) -> Option<Shift>
    ensures { IsShiftOn shift (option_map (λ i. interface_of i.now) interface.entry) result }
{
    match interface {
        None => None,
        Some(interface) => shift.in_units(interface.clock().unit),
    }
}

// Returns the bytes of a block after its time was moved: the new ones if it has another time, or else its own.
fn text_after<'a>(moved: Moved, text: &'a [u8], new: &'a [u8]) -> &'a [u8]
    ensures { result.now ≡ text_moved text.now new.now moved }
{
    match moved {
        Moved::Changed => new,
        Moved::Unstated | Moved::Malformed | Moved::Untimed => text,
    }
}

// Returns the block of this one's type and byte order in these bytes.
fn raw_in_text<'a>(block: &Block<'_>, text: &'a [u8]) -> RawBlock<'a>
    ensures { raw_of result ≡ raw_behind (framed_of block.now) text.now }
{
    RawBlock {
        type_: block.type_,
        endianness: block.endianness(),
        body: body_in_text(text),
    }
}

// Returns the body of the block in these bytes.
fn body_in_text(text: &[u8]) -> &[u8]
    ensures { result.now ≡ body_in text.now }
{
    if text.len() < 12 {
        return &[];
    }
    let (_head, after) = text.split_at(8);
    let (body, _len) = after.split_at(text.len() - 12);
    body
}

// Writes a block, with at most so many bytes of its packet if a number is given, and returns the result in that case.
fn put_within<W: Write>(
    shortening: &mut Option<Shortening>,
    block: RawBlock<'_>,
    text: &[u8],
    output: &mut W,
    has_failed: &mut bool,
) -> ResultParsing<Option<Shortened>>
    ensures puts { PutsWithin (most_in shortening.old) (raw_of block.entry) text.now (W.contents output.old) (W.contents output.new) result }
    ensures most { most_in shortening.new ≡ most_in shortening.old }
    ensures noted { NotesFailure has_failed.old has_failed.new result }
{
    match shortening {
        Some(shortening) => {
            let shortened = shortening.put(output, has_failed, block, text)?;
            Ok(Some(shortened))
        }
        None => {
            put(output, has_failed, text)?;
            Ok(None)
        }
    }
}
