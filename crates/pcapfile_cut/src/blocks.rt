//! Cutting PcapNg captures.

ghost use Rattle.std.specs.Prelude.{◌≡◌, ◌≤◌, ◌↔◌, ◌-◌, ◌^◌, [], false, true, None, IfErr, IfOk, IsTrue};
ghost use Rattle.pcap_core.specs.Errors.{IsMemory};
ghost use Rattle.pcapfile_cut.specs.Cuts.{IsNew};
ghost use Rattle.pcapfile_cut.specs.JoinedBlocks.{JoinsBlocks, JoinsFrom, LosesLead, PutsLead, StepsLead, TakesLead, is_front};
ghost use Rattle.pcapfile_cut.specs.BlockCuts.{Counts, CutsBlockPart, CutsFrom, CutsPartFrom, LendsNext, Opens, PassesNext, PeeksNext, Skips, StepsFrom, is_enough as enough, lent_by, place_of, point};

use crate::cutting::Outcome;
use crate::repeated::Repeated;
use crate::wanted::Wanted;
use pcap_core::ResultParsing;
use pcap_items::stream::put;
use pcap_ng::pcapng::{BlockHeader, PcapNgReader};
use pcapfile_run::holds_packet;
use std::alloc::Global;
use std::io;
use std::io::{Read, Write};

/// A PcapNg capture that is read part by part.
#[derive(Drop)]
pub struct BlockCutter<R> {
    pub(crate) alloc: Global,
    pub(crate) reader: PcapNgReader<R>,
    pub(crate) repeated: Repeated,
    /// The header of a block that the reader lends and that is in no part yet.
    pub(crate) pending: Option<BlockHeader>,
}

impl<R> BlockCutter<R> {
    /// Returns the bytes with which a part begins here.
    pub fn opening(&self) -> &[u8]
        ensures { result.now ≡ (place_of (λ _. None) self.now).opening }
    {
        self.repeated.opening()
    }

    /// Returns whether each block that was read is in a part.
    pub fn is_all_in_parts(&self) -> bool
        ensures { IsTrue result ↔ ((place_of (λ _. None) self.now).pending ≡ []) }
    {
        self.pending.is_none()
    }

    /// Returns the reader, which lends the block that was read last.
    pub fn reader(&self) -> &PcapNgReader<R>
        ensures { result.now ≡ self.now.reader }
    {
        &self.reader
    }
}

impl<R: Read + Drop> BlockCutter<R> {
    /// Reads the first block of a capture, which must be a section header. The first part begins with it.
    ///
    /// The errors are those of `PcapNgReader::new`.
    pub fn new(alloc: Global, input: R) -> ResultParsing<BlockCutter<R>>
        ensures { Opens R.remaining input result }
    {
        let reader = PcapNgReader::new(alloc, input)?;
        let repeated = Repeated::new(alloc, reader.text())?;
        Ok(BlockCutter {
            alloc,
            reader,
            repeated,
            pending: None,
        })
    }

    /// Reads the next block, and returns its header. The block, which `reader` lends, is in no later part, except where parts repeat it.
    ///
    /// The errors are those of `PcapNgReader`, and `OutOfMemory` if the bytes of a block that parts repeat can't be held.
    pub fn pass(&mut self) -> ResultParsing<Option<BlockHeader>>
        ensures { PassesNext (lent_by self.new) (place_of R.remaining self.old) (place_of R.remaining self.new) result }
    {
        let Some(header) = self.lend()? else {
            return Ok(None);
        };
        self.pending = None;
        Ok(Some(header))
    }

    /// Reads the next block unless the last one that this call returned was not passed or cut yet, and returns its header. `reader` lends
    /// the block. Returns None at the end of the capture.
    ///
    /// The errors are those of `pass`.
    pub fn peek(&mut self) -> ResultParsing<Option<BlockHeader>>
        ensures { PeeksNext (lent_by self.new) (place_of R.remaining self.old) (place_of R.remaining self.new) result }
    {
        self.lend()
    }

    /// Writes one part: the section header in force, the interfaces, names and decryption secrets of its section so far, and then the
    /// blocks with the wanted packets and all blocks between them. If other parts follow, the blocks before the next packet belong to
    /// this part. `Wanted::All` and `Wanted::Selected` are all blocks.
    ///
    /// Without an error, exactly the blocks up to the end of the part were read, and the next packet's block if there is one. For a
    /// truncated or malformed block the error is that of `PcapNgReader`, and all blocks before it were written. `IoError` also if a write
    /// failed. `OutOfMemory` also if the bytes of a block that parts repeat can't be held.
    pub fn cut<W: Write>(
        &mut self,
        output: &mut W,
        wanted: Wanted<'_>,
        others_follow: bool,
    ) -> Outcome
        ensures { CutsBlockPart wanted.entry others_follow (place_of R.remaining self.old) (place_of R.remaining self.new)
            (W.contents output.old) (W.contents output.new) result }
    {
        let mut outcome = Outcome::none();
        outcome.fault = self
            .cut_part(output, wanted, others_follow, &mut outcome)
            .err();
        outcome.read_failed = self.reader.failed();
        outcome
    }

    /// Appends this capture, which is a further part of another, to an output. `in_force` are the bytes with which a part would begin
    /// behind that output. The blocks that the caller has already read or cut are not written.
    ///
    /// The lead is the opening, and the blocks after it for as long as `in_force` begins with it and has more. It is left out if it is
    /// `in_force`. All blocks after it are written.
    ///
    /// The errors are those of `cut`, and `OutOfMemory` also if the lead can't be held.
    pub fn join<W: Write>(&mut self, in_force: &[u8], output: &mut W) -> Outcome
        ensures { JoinsBlocks in_force.now (place_of R.remaining self.old) (place_of R.remaining self.new) (W.contents output.old)
            (W.contents output.new) result }
    {
        let mut outcome = Outcome::none();
        outcome.fault = self.join_behind(in_force, output, &mut outcome).err();
        outcome.read_failed = self.reader.failed();
        outcome
    }

    // Reads the next block unless one is pending, and returns its header. Returns None at the end of the capture.
    pub(crate) fn lend(&mut self) -> ResultParsing<Option<BlockHeader>>
        ensures next { LendsNext (place_of R.remaining self.old) (place_of R.remaining self.new) result }
        ensures pending { IfOk result (λ header. header ≡ self.new.pending) }
    {
        if self.pending.is_some() {
            return Ok(self.pending);
        }
        let header = match self.reader.next_header() {
            None => return Ok(None),
            Some(Err(e)) => return Err(e),
            Some(Ok(header)) => header,
        };
        self.repeated
            .pass(self.alloc, header.type_, self.reader.text())?;
        self.pending = Some(header);
        Ok(self.pending)
    }

    // Writes the next block, and counts it. Writes nothing and returns false at the end of the capture, and before a packet if the part
    // has enough.
    fn cut_next<W: Write>(
        &mut self,
        output: &mut W,
        wanted: Wanted<'_>,
        outcome: &mut Outcome,
    ) -> ResultParsing<bool>
        requires no_write_failed { outcome.old.write_failed ≡ false }
        ensures { StepsFrom wanted.entry (point (place_of R.remaining self.old) (W.contents output.old) outcome.old)
            (point (place_of R.remaining self.new) (W.contents output.new) outcome.new) result }
    {
        let Some(header) = self.lend()? else {
            return Ok(false);
        };
        let has_packet = holds_packet(header.type_);
        if has_packet && is_enough(wanted, outcome.packets, outcome.bytes) {
            return Ok(false);
        }
        put(output, &mut outcome.write_failed, self.reader.text())?;
        count(outcome, has_packet, self.reader.text().len());
        self.pending = None;
        Ok(true)
    }

    // Writes blocks until the part has enough. If other parts follow, it has the blocks before the next packet too.
    fn cut_blocks<W: Write>(
        &mut self,
        output: &mut W,
        wanted: Wanted<'_>,
        others_follow: bool,
        outcome: &mut Outcome,
    ) -> ResultParsing<()>
        requires no_write_failed { outcome.old.write_failed ≡ false }
        requires within { outcome.old.packets ≤ 2 ^ 64 - 1 }
        requires within_bytes { outcome.old.bytes ≤ 2 ^ 64 - 1 }
        ensures { CutsFrom wanted.entry others_follow (point (place_of R.remaining self.old) (W.contents output.old) outcome.old)
            (point (place_of R.remaining self.new) (W.contents output.new) outcome.new) result }
    {
        let mut blocks: u64 = 0;
        while blocks < u64::MAX
            && (others_follow || !is_enough(wanted, outcome.packets, outcome.bytes))
        {
            if !self.cut_next(output, wanted, outcome)? {
                return Ok(());
            }
            blocks += 1;
        }
        Ok(())
    }

    // Reads the blocks before the first wanted packet, and counts them.
    fn skip(&mut self, wanted: Wanted<'_>, outcome: &mut Outcome) -> ResultParsing<()>
        requires no_write_failed { outcome.old.write_failed ≡ false }
        requires within { outcome.old.packets ≤ 2 ^ 64 - 1 }
        requires within_bytes { outcome.old.bytes ≤ 2 ^ 64 - 1 }
        ensures { Skips wanted.entry (place_of R.remaining self.old) (place_of R.remaining self.new) outcome.old outcome.new result }
    {
        match wanted {
            Wanted::Numbers { first, .. } if first > 1 => {
                let before = Wanted::Numbers {
                    first: 1,
                    last: first - 1,
                };
                self.cut_blocks(&mut io::sink(), before, true, outcome)
            }
            _ => Ok(()),
        }
    }

    // Writes the opening of a part, and then its blocks.
    fn cut_part<W: Write>(
        &mut self,
        output: &mut W,
        wanted: Wanted<'_>,
        others_follow: bool,
        outcome: &mut Outcome,
    ) -> ResultParsing<()>
        requires { IsNew outcome.old }
        ensures { CutsPartFrom wanted.entry others_follow (point (place_of R.remaining self.old) (W.contents output.old) outcome.old)
            (point (place_of R.remaining self.new) (W.contents output.new) outcome.new) result }
    {
        self.skip(wanted, outcome)?;
        put(output, &mut outcome.write_failed, self.repeated.opening())?;
        self.cut_blocks(output, wanted, others_follow, outcome)
    }

    // Returns the bytes with which a part begins here.
    fn copy_opening(&self) -> ResultParsing<Vec<u8>>
        ensures bytes { IfOk result (λ opening. opening.items ≡ (place_of R.remaining self.now).opening) }
        ensures memory { IfErr result IsMemory }
    {
        Ok(Vec::from_slice(self.alloc, self.repeated.opening())?)
    }

    // Appends the next block to the lead, and counts it. Returns false at the end of the capture.
    fn lead_on(&mut self, lead: &mut Vec<u8>, outcome: &mut Outcome) -> ResultParsing<bool>
        ensures { StepsLead lead.old.items lead.new.items (place_of R.remaining self.old) (place_of R.remaining self.new) outcome.old
            outcome.new result }
    {
        let Some(header) = self.lend()? else {
            return Ok(false);
        };
        lead.extend_from_slice(self.reader.text())?;
        count(
            outcome,
            holds_packet(header.type_),
            self.reader.text().len(),
        );
        self.pending = None;
        Ok(true)
    }

    // Returns the bytes of the opening, and of the blocks after it for as long as `in_force` begins with them and has more.
    fn read_lead(&mut self, in_force: &[u8], outcome: &mut Outcome) -> ResultParsing<Vec<u8>>
        requires within { outcome.old.packets ≤ 2 ^ 64 - 1 }
        requires within_bytes { outcome.old.bytes ≤ 2 ^ 64 - 1 }
        ensures lead { IfOk result (λ lead. TakesLead in_force.now (place_of R.remaining self.old) (place_of R.remaining self.new) outcome.old
            outcome.new lead.items) }
        ensures fails { IfErr result (λ e. LosesLead in_force.now (place_of R.remaining self.old) (place_of R.remaining self.new) outcome.old
            outcome.new e) }
    {
        let mut lead = self.copy_opening()?;
        let mut blocks: u64 = 0;
        while blocks < u64::MAX && begins_with(in_force, lead.as_slice()) {
            if !self.lead_on(&mut lead, outcome)? {
                return Ok(lead);
            }
            blocks += 1;
        }
        Ok(lead)
    }

    // Writes the lead unless it is `in_force`, and then all blocks after it.
    fn join_behind<W: Write>(
        &mut self,
        in_force: &[u8],
        output: &mut W,
        outcome: &mut Outcome,
    ) -> ResultParsing<()>
        requires { IsNew outcome.old }
        ensures { JoinsFrom in_force.now (point (place_of R.remaining self.old) (W.contents output.old) outcome.old)
            (point (place_of R.remaining self.new) (W.contents output.new) outcome.new) result }
    {
        let lead = self.read_lead(in_force, outcome)?;
        put_lead(in_force, lead.as_slice(), output, &mut outcome.write_failed)?;
        self.cut_blocks(output, Wanted::All, false, outcome)
    }
}

// Counts a block of this many bytes, and its packet if it has one.
fn count(outcome: &mut Outcome, has_packet: bool, len: usize)
    ensures { Counts has_packet len outcome.old outcome.new }
{
    outcome.packets = outcome.packets.saturating_add(u64::from(has_packet));
    outcome.bytes = outcome.bytes.saturating_add(len as u64);
}

// Returns whether a part with this many packets and bytes has enough.
fn is_enough(wanted: Wanted<'_>, packets: u64, bytes: u64) -> bool
    ensures { result ≡ enough wanted.entry packets bytes }
{
    match wanted {
        Wanted::Numbers { last, .. } => last <= packets,
        Wanted::Bytes(most) => 0 < packets && most <= bytes,
        Wanted::All | Wanted::Selected(_) => false,
    }
}

// Writes a lead unless it is `in_force`.
fn put_lead<W: Write>(
    in_force: &[u8],
    lead: &[u8],
    output: &mut W,
    has_failed: &mut bool,
) -> ResultParsing<()>
    ensures wrote { PutsLead in_force.now lead.now (W.contents output.old) (W.contents output.new) result }
    ensures told { IfOk result (λ done. has_failed.new ≡ has_failed.old) }
    ensures failed { IfErr result (λ e. has_failed.new ≡ true) }
{
    if lead == in_force {
        return Ok(());
    }
    put(output, has_failed, lead)
}

// Returns whether a text begins with these bytes, and has more.
fn begins_with(text: &[u8], front: &[u8]) -> bool
    ensures { result ≡ is_front text.now front.now }
{
    front.len() < text.len() && text.starts_with(front)
}
