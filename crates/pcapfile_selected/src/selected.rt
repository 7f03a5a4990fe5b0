//! Captures of which the selected packets are read.

ghost use Rattle.std.specs.Prelude.{◌≡◌, ◌<◌, ◌≤◌, ◌||◌, [], length, IfErr, IfOk, IsTrue, MatchResult, None, Some, false};
ghost use Rattle.std.specs.Io.{ReadsAtMost};
ghost use Rattle.std.specs.Io.KnownBytes.{ReadConsumes};
ghost use Rattle.pcapfile_selected.specs.SelectedItems.{BeginsItems, BeginsSelected, Empties, FailsToBegin, Gives, IsFailureAt, KeepsFailure, MakesItems, MakesMore, MakesOne, PutsBlocks, PutsItem, PutsPacket, ReadsSelected, Refills, TellsFailure, has_failed, is_failure};
ghost use Rattle.pcapfile_files.specs.Buffered.{left_in};

use crate::account::Account;
use crate::ahead::copy_front;
use crate::blocks::{BlockSource, Choosing};
use crate::selecting::Tests;
use crate::source::{Exceptions, PacketSource, Source};
use pcap_file::{PcapError, ResultParsing};
use pcap_program::{Exit, Uninterrupted};
use pcapfile_cut::{Outcome, PacketCutter};
use pcapfile_run::{Format, format_of};
use std::alloc::{AllocError, Global};
use std::io;
use std::io::{BufReader, ErrorKind, Read};
use std::rc::Rc;

/// The number of bytes that are made at once, to which the rest of the last packet or block is added.
const ENOUGH: usize = 65_536;

/// The input of a selection.
type Input<R> = BufReader<Uninterrupted<R>>;

/// The packets of a classic capture that are selected.
#[derive(Drop)]
struct SelectedPackets<'a, R> {
    source: PacketSource<Input<R>>,
    cutter: PacketCutter<'a>,
}

/// The blocks of a PcapNg capture that are selected.
#[derive(Drop)]
struct SelectedBlocks<'a, R> {
    source: BlockSource<Input<R>>,
    choosing: Choosing<'a>,
    outcome: Outcome,
    /// The error in the blocks before the first wanted packet.
    fault: Option<PcapError>,
}

/// The items that are selected.
#[derive(Drop)]
enum Items<'a, R> {
    Packets(SelectedPackets<'a, R>),
    Blocks(SelectedBlocks<'a, R>),
}

/// A capture with the selected packets of another one: the bytes that `cut` writes. It is made packet by packet, or block by block. It ends
/// before the first truncated or malformed item of the other capture, and the account has the reason.
pub struct Selected<'a, R> {
    alloc: Global,
    items: Items<'a, R>,
    has_ended: bool,
    /// The error that ended the capture early and is not returned yet.
    failure: Option<io::Error>,
    /// The bytes that were made last.
    made: Vec<u8>,
    /// The number of these bytes that were read.
    given: usize,
    account: Rc<Account>,
}

// It is written out, so that crates above this one call it and prove no drop of the fields.
impl<R: Drop> Drop for Selected<'_, R> {
    fn drop(self) {
        let Selected {
            alloc: _,
            items: _,
            has_ended: _,
            failure: _,
            made: _,
            given: _,
            account: _,
        } = self;
    }
}

impl<'a, R: Read + Drop> SelectedPackets<'a, R> {
    ghost use Rattle.pcapfile_selected.specs.SelectedItems.{BeginsPackets, FailsPackets};

    // Reads the header of a capture, and writes it.
    fn begin(
        alloc: Global,
        input: Input<R>,
        tests: Tests<'a>,
        made: &mut Vec<u8>,
    ) -> ResultParsing<SelectedPackets<'a, R>>
        requires { made.old.items ≡ [] }
        ensures begins { IfOk result (λ packets. BeginsPackets R.remaining tests.entry input packets made.new.items) }
        ensures fails { IfErr result (λ e. FailsPackets R.remaining input e) }
    {
        let mut source = PacketSource::new(input)?;
        let cutter = source.begin(alloc, made, tests)?;
        Ok(SelectedPackets { source, cutter })
    }

    // Reads the next packet, and writes it if it is selected.
    fn put_next(&mut self, made: &mut Vec<u8>) -> ResultParsing<bool>
        ensures { PutsPacket R.remaining self.old self.new (Some made.old.items) (Some made.new.items) result }
    {
        self.source.put_next(made, &mut self.cutter)
    }

    // Returns the counts of the packets that were read.
    fn outcome(&self) -> Outcome
        ensures read_failed { result.read_failed ≡ self.now.cutter.outcome.read_failed }
        ensures write_failed { result.write_failed ≡ self.now.cutter.outcome.write_failed }
    {
        let Outcome {
            packets,
            bytes,
            duplicates,
            unmoved,
            read_failed,
            write_failed,
            ..
        } = *self.cutter.outcome();
        Outcome {
            packets,
            bytes,
            duplicates,
            unmoved,
            fault: None,
            read_failed,
            write_failed,
        }
    }
}

impl<'a, R: Read + Drop> SelectedBlocks<'a, R> {
    ghost use Rattle.pcapfile_selected.specs.SelectedItems.{BeginsBlocks, FailsBlocks};
    ghost use Rattle.pcapfile_selected.specs.SelectedBlocks.{place_of};

    // Reads a capture up to the first wanted packet, and writes the section header and the interfaces in force.
    fn begin(
        alloc: Global,
        input: Input<R>,
        tests: Tests<'a>,
        made: &mut Vec<u8>,
    ) -> ResultParsing<(u64, SelectedBlocks<'a, R>)>
        requires { made.old.items ≡ [] }
        ensures begins { IfOk result (λ begun. BeginsBlocks R.remaining tests.entry input begun.1 made.new.items) }
        ensures fails { IfErr result (λ e. FailsBlocks R.remaining input e) }
    {
        let mut source = BlockSource::new(alloc, input)?;
        let place = source.opening_len();
        let mut choosing = Choosing::new(alloc, tests)?;
        let mut outcome = Outcome::none();
        let fault = source
            .pass_to(alloc, tests.first(), &mut choosing, &mut outcome)
            .err();
        made.extend_from_slice(source.in_force())?;
        let blocks = SelectedBlocks {
            source,
            choosing,
            outcome,
            fault,
        };
        Ok((place, blocks))
    }

    // Writes the next block unless it is a packet that is not selected.
    fn put_next(&mut self, alloc: Global, made: &mut Vec<u8>) -> ResultParsing<bool>
        ensures { PutsBlocks R.remaining self.old self.new (Some made.old.items) (Some made.new.items) result }
    {
        if let Some(error) = self.fault.take() {
            return Err(error);
        }
        let SelectedBlocks {
            source,
            choosing,
            outcome,
            ..
        } = self;
        source.put_next(alloc, made, choosing, outcome)
    }

    // Returns the counts of the blocks that were read.
    fn outcome(&self) -> Outcome
        ensures read_failed { result.read_failed ≡ (place_of (left_in R.remaining) self.now.source).source.failed }
        ensures write_failed { result.write_failed ≡ self.now.outcome.write_failed }
    {
        let mut outcome = Outcome::none();
        outcome.packets = self.outcome.packets;
        outcome.bytes = self.outcome.bytes;
        outcome.duplicates = self.outcome.duplicates;
        outcome.read_failed = self.source.blocks.reader().failed();
        outcome.write_failed = self.outcome.write_failed;
        outcome
    }
}

impl<'a, R: Read + Drop> Items<'a, R> {
    // Reads the beginning of a capture, and writes it. Returns its length in the capture, in bytes.
    fn begin(
        alloc: Global,
        mut input: Input<R>,
        tests: Tests<'a>,
        made: &mut Vec<u8>,
    ) -> ResultParsing<(u64, Items<'a, R>)>
        requires { made.old.items ≡ [] }
        ensures { MatchResult result (λ begun. BeginsItems R.remaining tests.entry (left_in R.remaining input) begun.1 made.new.items)
            (FailsToBegin R.remaining (left_in R.remaining input)) }
    {
        match format_of(&mut input)? {
            Format::Pcap => {
                let packets = SelectedPackets::begin(alloc, input, tests, made)?;
                Ok((packets.source.opening_len(), Items::Packets(packets)))
            }
            Format::PcapNg => {
                let (place, blocks) = SelectedBlocks::begin(alloc, input, tests, made)?;
                Ok((place, Items::Blocks(blocks)))
            }
        }
    }

    // Reads the next packet or block, and writes it unless it is a packet that is not selected. Returns false if no further packet is
    // wanted, or nothing follows.
    fn put_next(&mut self, alloc: Global, made: &mut Vec<u8>) -> ResultParsing<bool>
        ensures { PutsItem R.remaining self.old self.new (Some made.old.items) (Some made.new.items) result }
    {
        match self {
            Items::Packets(packets) => packets.put_next(made),
            Items::Blocks(blocks) => blocks.put_next(alloc, made),
        }
    }

    // Returns the number of packets that were read.
    fn packets(&self) -> u64 {
        match self {
            Items::Packets(packets) => packets.cutter.outcome().packets,
            Items::Blocks(blocks) => blocks.outcome.packets,
        }
    }

    fn outcome(&self) -> Outcome
        ensures { (result.read_failed || result.write_failed) ≡ has_failed self.now }
    {
        match self {
            Items::Packets(packets) => packets.outcome(),
            Items::Blocks(blocks) => blocks.outcome(),
        }
    }

    fn exceptions(&self) -> Exceptions {
        match self {
            Items::Packets(packets) => packets.source.exceptions(),
            Items::Blocks(blocks) => blocks.choosing.exceptions(),
        }
    }

    // Returns whether the next read of the input may wait for more bytes.
    fn may_wait(&self) -> bool {
        let input = match self {
            Items::Packets(packets) => packets.source.input(),
            Items::Blocks(blocks) => blocks.source.reader().get_ref(),
        };
        input.buffer().is_empty()
    }
}

impl<'a, R: Read + Drop> Selected<'a, R> {
    /// Returns the selected packets of a capture. The errors are those of its first header or section header.
    pub fn new(
        alloc: Global,
        input: BufReader<Uninterrupted<R>>,
        tests: Tests<'a>,
        account: Rc<Account>,
    ) -> ResultParsing<Selected<'a, R>>
        ensures { MatchResult result (BeginsSelected R.remaining tests.entry (left_in R.remaining input)) (FailsToBegin R.remaining (left_in R.remaining input)) }
    {
        let mut made = Vec::new(alloc);
        let (place, items) = Items::begin(alloc, input, tests, &mut made)?;
        account.begin(place);
        Ok(Selected {
            alloc,
            items,
            has_ended: false,
            failure: None,
            made,
            given: 0,
            account,
        })
    }

    // Makes more bytes if all that were made were read.
    fn refill(&mut self) -> io::Result<()>
        ensures { Refills R.remaining self.old self.new result }
    {
        if self.given < self.made.len() {
            return Ok(());
        }
        self.make_more()
    }

    // Makes more bytes, and replaces those made before. There are none after the end.
    fn make_more(&mut self) -> io::Result<()>
        ensures { MakesMore R.remaining self.old self.new result }
    {
        self.empty();
        self.make_items()?;
        self.account.note_exceptions(self.items.exceptions());
        self.tell_failure()
    }

    // Makes items until there are bytes enough, or the selection ends.
    fn make_items(&mut self) -> io::Result<()>
        ensures { MakesItems R.remaining self.old self.new result }
    {
        let mut items: u64 = 0;
        while items < u64::MAX {
            if self.has_ended || self.has_enough() {
                return Ok(());
            }
            self.make_item()?;
            items += 1;
        }
        Ok(())
    }

    // Returns whether the bytes that were made are given before more are made.
    fn has_enough(&self) -> bool
        ensures { IsTrue result → 0 < length self.now.made.items }
    {
        self.made.len() >= ENOUGH || !self.made.is_empty() && self.items.may_wait()
    }

    // Reads the next packet or block, and notes the number of a packet that is written.
    fn make_item(&mut self) -> io::Result<()>
        requires { self.old.has_ended ≡ false }
        ensures { MakesOne R.remaining self.old self.new result }
    {
        let (len, packets) = (self.made.len(), self.items.packets());
        match self.items.put_next(self.alloc, &mut self.made) {
            Ok(true) => self.note_number(len, packets)?,
            Ok(false) => self.has_ended = true,
            Err(error) => {
                self.has_ended = true;
                self.fail(error);
            }
        }
        Ok(())
    }

    // Notes the number of the packet that was put behind so many bytes, after so many packets, if it was written.
    fn note_number(&self, len: usize, packets: u64) -> Result<(), AllocError> {
        let now = self.items.packets();
        if now > packets && self.made.len() > len {
            self.account.note_number(now)?;
        }
        Ok(())
    }

    // Notes why the capture ended: a fault of the other capture, or an error that is returned later.
    fn fail(&mut self, error: PcapError)
        ensures same { self.new ≡ record self.old { failure = self.new.failure } }
        ensures keeps { KeepsFailure error (has_failed self.old.items) self.old.failure self.new.failure }
    {
        let mut outcome = self.items.outcome();
        if is_failure(&error, outcome.read_failed || outcome.write_failed) {
            self.failure = Some(failure_of(Exit::from(error)));
            return;
        }
        outcome.fault = Some(error);
        self.account.note_fault(outcome);
    }
}

impl<R> Selected<'_, R> {
    // Forgets the bytes that were made.
    fn empty(&mut self)
        ensures { Empties self.old self.new }
    {
        self.made.clear();
        self.given = 0;
    }

    // Returns the failure that was kept if there is no byte to give.
    fn tell_failure(&mut self) -> io::Result<()>
        ensures { TellsFailure self.old self.new result }
    {
        if !self.made.is_empty() {
            return Ok(());
        }
        match self.failure.take() {
            None => Ok(()),
            Some(error) => Err(error),
        }
    }

    // Copies the first of the bytes that were made and not read, as many as fit, and returns how many.
    fn give(&mut self, buf: &mut [u8]) -> usize
        ensures gives { Gives self.old self.new result buf.new }
        ensures fits { result ≤ length buf.new }
    {
        let bytes = self.made.get(self.given..).unwrap_or_default();
        let count = copy_front(bytes, buf);
        self.given = self.given.saturating_add(count);
        count
    }
}

impl<R: Read + Drop> Read for Selected<'_, R> {
    ghost remaining = { λ capture. None };

    fn read(&mut self, buf: &mut [u8]) -> io::Result<usize>
        ensures bound { ReadsAtMost result buf.new }
        ensures bytes { ReadConsumes None None result buf.new }
        ensures reads { ReadsSelected R.remaining self.old self.new result buf.new }
    {
        self.refill()?;
        Ok(self.give(buf))
    }
}

// Returns whether memory ran out, or a read or a write failed.
fn is_failure(error: &PcapError, has_failed: bool) -> bool
    ensures { result ≡ is_failure error.now has_failed }
{
    match error {
        PcapError::OutOfMemory(_) => true,
        PcapError::IoError(_) => has_failed,
        _ => false,
    }
}

// Returns the error of a failed read or write, or of memory that ran out.
fn failure_of(exit: Exit) -> io::Error
    ensures { IsFailureAt exit result }
{
    match exit {
        Exit::Io(PcapError::IoError(error)) => error,
        Exit::Memory => io::Error::from(AllocError),
        _ => io::Error::from(ErrorKind::InvalidData),
    }
}
