//! Captures of either format that are read part by part.

ghost use Rattle.std.specs.Prelude.{◌≡◌};
ghost use Rattle.std.specs.Io.KnownBytes.{Keeps};
ghost use Rattle.pcap_classic.specs.Magic.{is_magic};
ghost use Rattle.pcapfile_cut.specs.Cuts.{CutsPart};
ghost use Rattle.pcapfile_cut.specs.Openings.{header_of};
ghost use Rattle.pcapfile_selected.specs.PacketTimes.{IsFlushed, IsHeadTime, IsTimeUnder, unread};
ghost use Rattle.pcapfile_selected.specs.SpanPackets.{joined};

use crate::ahead::Ahead;
use crate::selecting::Tests;
use crate::spans::Spans;
use crate::times::time_with;
use byteorder::{BigEndian, ByteOrder, LittleEndian};
use pcap_file::pcap::PacketHeader;
use pcap_file::pcapng::Timestamp;
use pcap_file::{Endianness, PcapError, ResultParsing, TsResolution};
use pcap_items::stream::put;
use pcapfile_cut::{Opening, Outcome, PacketCutter, Selection, Wanted, cut_more, cut_part};
use std::alloc::Global;
use std::io;
use std::io::{BufRead, Read, Write};

/// No packet.
const NO_PACKET: Wanted = Wanted::Numbers { first: 1, last: 0 };

/// The next packet.
const NEXT_PACKET: Wanted = Wanted::Numbers { first: 1, last: 1 };

/// The time of a packet whose header is truncated or malformed.
const NO_TIME: Timestamp = Timestamp {
    seconds: 0,
    nanoseconds: 0,
};

/// How many packets a selection left out because a test doesn't apply to them or as duplicates, and how many it did not compare,
/// shorten or move.
#[derive(Clone, Copy, Default)]
pub struct Exceptions {
    /// Packets with a malformed body that were left out.
    pub malformed: u64,
    /// Packets without a time that were left out, if a test depends on it.
    pub without_time: u64,
    /// Packets that were left out as duplicates.
    pub duplicates: u64,
    /// Packets with a malformed body, which are written and can't be compared.
    pub uncompared: u64,
    /// Packets with a malformed body that were not shortened.
    pub whole_malformed: u64,
    /// Longer simple packets, which can't be shortened.
    pub whole_simple: u64,
    /// Packets with a malformed body whose time was not moved.
    pub unmoved_malformed: u64,
    /// Packets that keep their time, since the capture can't state the new one.
    pub unmoved: u64,
}

/// A capture that is read part by part.
pub trait Source {
    /// Writes a part: the opening at this position, and the wanted packets after it. If other parts follow, the blocks before
    /// the next packet belong to this part.
    fn write_part<W: Write>(
        &mut self,
        alloc: Global,
        output: &mut W,
        wanted: Wanted<'_>,
        others_follow: bool,
    ) -> Outcome;

    /// Writes the part that ends before the first packet that the spans don't take: the opening at this position, and all after it.
    fn write_span<W: Write>(&mut self, alloc: Global, output: &mut W, spans: &mut Spans) -> Outcome;

    /// Writes one part: the opening at this position, and the selected packets after it.
    fn write_selected<W: Write>(
        &mut self,
        alloc: Global,
        output: &mut W,
        tests: Tests<'_>,
    ) -> Outcome;

    /// Returns whether all of the capture is in a part.
    fn is_at_end(&mut self) -> io::Result<bool>;

    /// Returns how many packets were left out or treated otherwise than the user asked.
    fn exceptions(&self) -> Exceptions;

    /// Returns the length of the next part's opening, in bytes.
    fn opening_len(&self) -> u64;
}

/// A classic capture after its header.
#[derive(Drop)]
pub struct PacketSource<R> {
    opening: Opening,
    input: Ahead<R>,
    /// How many packets were left out or treated otherwise than the user asked.
    exceptions: Exceptions,
}

impl<R: BufRead + Drop> PacketSource<R> {
    ghost use Rattle.std.specs.Prelude.{◌⊎◌, IfErr, IfOk, IfSome, IsTrue, OnOk, take};
    ghost use Rattle.pcap_core.specs.Errors.{IsIo, IsMemory};
    ghost use Rattle.pcapfile_selected.specs.Ahead.{held_in};
    ghost use Rattle.pcapfile_selected.specs.Asked.{is_relative};
    ghost use Rattle.pcapfile_cut.specs.Steps.{StaysThat, StepsOnce, progress_of};
    ghost use Rattle.pcapfile_selected.specs.PacketTimes.{BeginsAsked, IsNextTime, OpensPackets, SelectsAsked, input_of, opening_of};

    /// Reads the header.
    ///
    /// `InvalidField` if the magic number is none of the four. `IoError` if a read failed, or the stream ended early.
    pub fn new(mut input: R) -> ResultParsing<PacketSource<R>>
        ensures { OpensPackets R.remaining input result }
    {
        let opening = Opening::read(&mut input, &mut false)?;
        Ok(PacketSource {
            opening,
            input: Ahead::new(input),
            exceptions: Exceptions::default(),
        })
    }

    /// Returns the capture's header.
    pub fn opening(&self) -> &Opening
        ensures { result.now ≡ opening_of self.now }
    {
        &self.opening
    }

    // Returns the tests of the packets. If they depend on the time of the first packet, its header is read ahead.
    fn selection<'a>(&mut self, tests: Tests<'a>) -> io::Result<Selection<'a>>
        ensures kept { Keeps (input_of R.remaining self.old) (input_of R.remaining self.new) }
        ensures opening { opening_of self.new ≡ opening_of self.old }
        ensures exceptions { self.new.exceptions ≡ self.old.exceptions }
        ensures selects { IfOk result (λ selection. SelectsAsked tests.entry (header_of (opening_of self.old)) (input_of R.remaining self.old) selection) }
        ensures needed { IfErr result (λ _. IsTrue (is_relative tests.entry)) }
    {
        let first = if tests.is_relative() {
            self.next_time()?.unwrap_or(NO_TIME)
        } else {
            NO_TIME
        };
        Ok(tests.of_packets(first))
    }

    // Returns the time in the header of the next packet, which is read ahead. Returns None if the header is truncated or malformed.
    fn next_time(&mut self) -> io::Result<Option<Timestamp>>
        ensures kept { Keeps (input_of R.remaining self.old) (input_of R.remaining self.new) }
        ensures opening { opening_of self.new ≡ opening_of self.old }
        ensures exceptions { self.new.exceptions ≡ self.old.exceptions }
        ensures time { IfOk result (λ time. IsNextTime (header_of (opening_of self.old)) (input_of R.remaining self.old) time) }
        ensures ahead { OnOk result (IfSome (input_of R.remaining self.old) (λ bytes. held_in self.new.input ≡ take 16 bytes)) }
    {
        self.input.read_ahead()?;
        Ok(time_in(&self.opening, self.input.held()))
    }

    /// Writes the opening, and returns a cut of the selected packets after it.
    ///
    /// `IoError` if the header of the first packet could not be read ahead, or a write failed. `OutOfMemory` if there is no memory for the
    /// digests of the packets that duplicates are compared with.
    pub(crate) fn begin<'a, W: Write>(
        &mut self,
        alloc: Global,
        output: &mut W,
        tests: Tests<'a>,
    ) -> ResultParsing<PacketCutter<'a>>
        ensures begins { IfOk result (λ cutter. BeginsAsked tests.entry (opening_of self.old) (input_of R.remaining self.old) (W.contents output.old)
            (W.contents output.new) cutter) }
        ensures fails { IfErr result (λ e. IsIo e ⊎ IsMemory e) }
        ensures kept { Keeps (input_of R.remaining self.old) (input_of R.remaining self.new) }
        ensures opening { opening_of self.new ≡ opening_of self.old }
    {
        let selection = self.selection(tests)?;
        put(output, &mut false, self.opening.bytes())?;
        PacketCutter::new(alloc, &self.opening, selection)
    }

    /// Reads the next packet, and writes it if it is selected. Returns false if no further packet is wanted, or there is none.
    ///
    /// The errors are those of `PacketCutter`.
    pub(crate) fn put_next<W: Write>(
        &mut self,
        output: &mut W,
        cutter: &mut PacketCutter<'_>,
    ) -> ResultParsing<bool>
        ensures that { StaysThat cutter.old cutter.new }
        ensures steps { StepsOnce cutter.old cutter.new (progress_of cutter.old (input_of R.remaining self.old) (W.contents output.old))
            (progress_of cutter.new (input_of R.remaining self.new) (W.contents output.new)) result }
        ensures opening { opening_of self.new ≡ opening_of self.old }
    {
        cutter.put_next(&mut self.input, output)
    }

    /// Returns the input after the bytes that were read ahead.
    pub(crate) fn input(&self) -> &R {
        self.input.input()
    }
}

impl<R: BufRead + Drop> PacketSource<R> {
    ghost use Rattle.std.specs.Prelude.{◌<◌, ◌-◌, ◌^◌};
    ghost use Rattle.pcapfile_selected.specs.PacketTimes.{input_of, opening_of};
    ghost use Rattle.pcapfile_selected.specs.SpanPackets.{CutsPackets, StepsTaken, packet_run};

    // Cuts packets until the part's span does not take the next one.
    fn cut_all_taken<W: Write>(
        &mut self,
        alloc: Global,
        output: &mut W,
        spans: &mut Spans,
        outcome: &mut Outcome,
    )
        ensures cuts { CutsPackets (header_of (opening_of self.old)) (packet_run spans.old (input_of R.remaining self.old) (W.contents output.old) outcome.old)
            (packet_run spans.new (input_of R.remaining self.new) (W.contents output.new) outcome.new) }
        ensures opening { opening_of self.new ≡ opening_of self.old }
    {
        let mut packets: u64 = 0;
        while packets < u64::MAX {
            if outcome.fault.is_some() {
                return;
            }
            if !self.cut_taken(alloc, output, spans, outcome) {
                return;
            }
            packets += 1;
        }
    }

    // Reads the next packet, and writes it if the part's span takes it. Returns false if there is none, or the span does not take it.
    fn cut_taken<W: Write>(
        &mut self,
        alloc: Global,
        output: &mut W,
        spans: &mut Spans,
        outcome: &mut Outcome,
    ) -> bool
        ensures steps { StepsTaken (header_of (opening_of self.old)) (packet_run spans.old (input_of R.remaining self.old) (W.contents output.old) outcome.old)
            (packet_run spans.new (input_of R.remaining self.new) (W.contents output.new) outcome.new) result }
        ensures opening { opening_of self.new ≡ opening_of self.old }
    {
        let time = match self.next_time() {
            Ok(time) => time,
            Err(error) => {
                *outcome = joined(outcome, unread(error));
                return false;
            }
        };
        if self.input.held().is_empty() {
            return false;
        }
        if !spans.takes(time) {
            return false;
        }
        let next = cut_more(alloc, &self.opening, &mut self.input, output, NEXT_PACKET);
        *outcome = joined(outcome, next);
        true
    }
}

impl<R: BufRead + Drop> Source for PacketSource<R> {
    ghost use Rattle.std.specs.Prelude.{IfOk, IsTrue};
    ghost use Rattle.std.specs.Io.KnownBytes.{IsAtEnd};
    ghost use Rattle.pcapfile_selected.specs.PacketTimes.{WritesAsked, input_of, opening_of};
    ghost use Rattle.pcapfile_selected.specs.SpanPackets.{WritesPacketSpan, packet_run};

    fn write_part<W: Write>(
        &mut self,
        alloc: Global,
        output: &mut W,
        wanted: Wanted<'_>,
        _others_follow: bool,
    ) -> Outcome
        ensures { CutsPart (opening_of self.old) wanted.entry (input_of R.remaining self.old) (input_of R.remaining self.new) (W.contents output.old)
            (W.contents output.new) result }
    {
        cut_part(alloc, &self.opening, &mut self.input, output, wanted)
    }

    fn write_span<W: Write>(&mut self, alloc: Global, output: &mut W, spans: &mut Spans) -> Outcome
        ensures { (begun : Outcome) × WritesPacketSpan (opening_of self.old) (packet_run spans.old (input_of R.remaining self.old) (W.contents output.old) begun)
            (packet_run spans.new (input_of R.remaining self.new) (W.contents output.new) result) }
    {
        let mut outcome = cut_part(alloc, &self.opening, &mut self.input, output, NO_PACKET);
        self.cut_all_taken(alloc, output, spans, &mut outcome);
        outcome
    }

    fn write_selected<W: Write>(
        &mut self,
        alloc: Global,
        output: &mut W,
        tests: Tests<'_>,
    ) -> Outcome
        ensures { WritesAsked tests.entry (opening_of self.old) (input_of R.remaining self.old) (input_of R.remaining self.new) (W.contents output.old)
            (W.contents output.new) result }
    {
        let selection = match self.selection(tests) {
            Ok(selection) => selection,
            Err(error) => return unread(error),
        };
        let wanted = Wanted::Selected(&selection);
        let outcome = cut_part(alloc, &self.opening, &mut self.input, output, wanted);
        self.exceptions.duplicates = outcome.duplicates;
        self.exceptions.unmoved = outcome.unmoved;
        outcome
    }

    fn is_at_end(&mut self) -> io::Result<bool>
        ensures end { IfOk result (λ is. IsTrue is → IsAtEnd (input_of R.remaining self.old)) }
    {
        self.input.is_at_end()
    }

    fn exceptions(&self) -> Exceptions {
        self.exceptions
    }

    fn opening_len(&self) -> u64 {
        self.opening.bytes().len() as u64
    }
}

// Returns the time in the header of a packet. Returns None if the header is truncated or malformed; a cut then stops there.
fn time_in(opening: &Opening, bytes: &[u8]) -> Option<Timestamp>
    ensures { IsHeadTime (header_of opening.now) bytes.now result }
{
    let header = opening.header();
    let resolution = header.ts_resolution();
    match header.endianness() {
        Endianness::Big => time_under::<BigEndian>(resolution, bytes),
        Endianness::Little => time_under::<LittleEndian>(resolution, bytes),
    }
}

// Returns the time in the header of a packet in this byte order. Returns None if the header is truncated or malformed.
fn time_under<B: ByteOrder>(resolution: TsResolution, bytes: &[u8]) -> Option<Timestamp>
    ensures { IsTimeUnder B.number_of resolution bytes.now result }
{
    match PacketHeader::from_slice::<B>(bytes, resolution) {
        Ok((_, head)) => Some(time_with(i128::from(head.ts_sec), i64::from(head.ts_nsec))),
        Err(_) => None,
    }
}

// Returns the outcome of a part that this outcome of its first packets precedes.
fn joined(first: &Outcome, mut outcome: Outcome) -> Outcome
    ensures { result ≡ joined first.now outcome }
{
    outcome.packets = outcome.packets.saturating_add(first.packets);
    outcome.bytes = outcome.bytes.saturating_add(first.bytes);
    outcome
}

// Returns the outcome of a part whose first packet can't be read.
fn unread(error: io::Error) -> Outcome
    ensures { result ≡ unread error }
{
    let mut outcome = Outcome::none();
    outcome.fault = Some(PcapError::IoError(error));
    outcome.read_failed = true;
    outcome
}

/// Flushes the output, and returns the outcome of the part. It has the error of a failed call, unless it has another one.
pub fn flushed<W: Write>(output: &mut W, mut outcome: Outcome) -> Outcome
    ensures outcome { IsFlushed outcome result }
    ensures kept { Keeps (W.contents output.old) (W.contents output.new) }
{
    if outcome.fault.is_none() {
        if let Err(error) = output.flush() {
            outcome.fault = Some(PcapError::IoError(error));
            outcome.write_failed = true;
        }
    }
    outcome
}
