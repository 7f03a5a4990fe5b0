//! Mending blocks and writing them.

ghost use Rattle.std.specs.Prelude.{◌≡◌, IfOk};
ghost use Rattle.pcap_ng.specs.RawBlocks.{raw_in};
ghost use Rattle.pcap_tolerant_captures.specs.ReaderAsIs.{lent_item};
ghost use Rattle.pcap_written.specs.Raw.{raw_of};
ghost use Rattle.pcapfile_as_is.specs.MendedBlocks.{WritesMended};
ghost use Rattle.pcapfile_mended.specs.Mended.{IsMended};

use crate::block_teller::BlockTeller;
use crate::counted::{Spot, Told};
use pcap_blocks::BlockType;
use pcap_program::{Exit, put_line};
use pcap_tolerant_captures::{LentAsIs, PcapNgReaderAsIs};
use pcap_written::RawBlock;
use pcapfile_mended::{Mended, mend};
use std::alloc::{AllocError, Global};
use std::io::Write;

/// The longest body of a block that can be written: with the 12 bytes around it, its length fits in 32 bits.
const LONGEST_BODY: usize = 4_294_967_283;

/// The message for most blocks with a changed body.
const OPTIONS_LEFT: &str = "options that break rules are left out";

/// A writer that mends each block, writes it, and reports its changes.
#[derive(Debug, Drop)]
pub struct BlockRepairs<E> {
    /// The text before each line of the report.
    pub prefix: String,
    /// The output of the report. A failed write there stops nothing.
    pub notes: E,
    /// The buffer for a block's body.
    pub body: Vec<u8>,
    /// The buffer for a block's bytes.
    pub text: Vec<u8>,
}

// Returns the block that a reader lends.
fn block_in<'a, T>(reader: &'a PcapNgReaderAsIs<T>, lent: &LentAsIs) -> RawBlock<'a>
    ensures { raw_of result ≡ raw_in (lent_item reader.now lent.now).block }
{
    RawBlock {
        type_: lent.header.type_,
        endianness: lent.header.endianness,
        body: reader.body(),
    }
}

// Mends a block and puts its bytes into `text`. Returns an error if its length needs more than 32 bits.
fn make_text(
    alloc: Global,
    block: RawBlock<'_>,
    body: &mut Vec<u8>,
    text: &mut Vec<u8>,
) -> Result<Mended, AllocError>
    ensures { IfOk result (λ mended. IsMended (raw_of block.entry) mended text.new.items) }
{
    if block.body.len() > LONGEST_BODY {
        return Err(AllocError);
    }
    mend(alloc, block, body, text)
}

// Mends a block and writes it, by way of the buffers.
fn put_mended<W: Write>(
    alloc: Global,
    output: &mut W,
    block: RawBlock<'_>,
    body: &mut Vec<u8>,
    text: &mut Vec<u8>,
) -> Result<Mended, Exit>
    ensures { WritesMended (raw_of block.entry) (W.contents output.old) (W.contents output.new) result }
{
    let mended = make_text(alloc, block, body, text)?;
    put_line(output, text.as_slice())?;
    Ok(mended)
}

// Returns whether the body of a section header states the length of the section.
fn states_length(body: &[u8]) -> bool {
    body.len() >= 16 && body[8..16] != [255; 8]
}

// Returns the message for a section header with a changed body, by whether the old body stated a length and had flaws.
fn section_change(is_stated: bool, has_flaws: bool) -> &'static str {
    if !is_stated {
        return OPTIONS_LEFT;
    }
    if has_flaws {
        return "options that break rules are left out, and the length of its section is stated no more";
    }
    "the length of its section is stated no more"
}

// Returns the message for a block with a changed body, by whether the old body had flaws.
fn change_of(block: RawBlock<'_>, has_flaws: bool) -> &'static str {
    match block.type_ {
        BlockType::SectionHeader => section_change(states_length(block.body), has_flaws),
        BlockType::InterfaceDescription if block.body.len() < 8 => {
            "its body is too short for an interface, and is filled up with zeros, so that its packets get a link type and times"
        }
        _ => OPTIONS_LEFT,
    }
}

impl<E: Write> BlockRepairs<E> {
    // Reports the change of the block with this number, at this offset.
    fn tell(&mut self, number: u64, place: u64, mended: Mended, change: &str)
        ensures { self.new.prefix ≡ self.old.prefix }
    {
        let prefix = self.prefix.as_str();
        let what = match mended {
            Mended::Stays => return,
            Mended::Changed => change,
            Mended::LeftOut => "its body breaks a rule, and it is left out",
        };
        let _ = writeln!(self.notes, "{prefix}block {number} at byte {place}: {what}");
    }
}

impl<E: Write> BlockTeller for BlockRepairs<E> {
    ghost use Rattle.std.specs.Prelude.{ℕ, List, string_bytes};
    ghost use Rattle.pcapfile_as_is.specs.MendedBlocks.{TellsMended};

    ghost Setting = { List ℕ };

    ghost setting = { λ repairs. string_bytes repairs.prefix };

    ghost is_told = { λ setting number place item. TellsMended (raw_in item.block) };

    fn put<T, W: Write>(
        &mut self,
        alloc: Global,
        output: &mut W,
        at: Spot,
        reader: &PcapNgReaderAsIs<T>,
        lent: &LentAsIs,
    ) -> Result<Told, Exit> {
        let block = block_in(reader, lent);
        let change = change_of(block, !lent.flaws.is_empty());
        let mended = put_mended(alloc, output, block, &mut self.body, &mut self.text)?;
        self.tell(at.number, at.place, mended, change);
        Ok(Told {
            has_number: true,
            has_flaw: mended != Mended::Stays,
        })
    }
}
