//! A log of samples. Its items change the size of the samples after them, and the length of the heads after them.
//!
//! An item begins with its kind, two bytes, and a number, both high byte first. The number has two bytes, or four if samples have more
//! than eight. Kind 1 sets the size of each sample after it, at most 1000 bytes. Kind 2 is a sample of the channel with this number, and
//! its bytes follow. Before the first size, a sample has no bytes. Any other kind and a larger size are faults of the log, and no rules
//! of captures.

ghost use Rattle.std.specs.Prelude.{◌≡◌, ℕ, false, [], length, drop, OnOk};
ghost use Rattle.byteorder.specs.Endian.{big_number};
ghost use Rattle.pcap_core.specs.Answer.{Number};
ghost use Rattle.pcap_items.specs.Fill.{held_of, stream_of as source_of, has_failed as source_failed};
ghost use Rattle.pcap_items.specs.Held.{held_bytes};
ghost use Rattle.test_formats.specs.Samples.{meaning, number_width, head_length, sample_format, held_item, item_with, size_behind, HeadTells, BytesTell, TakesSample, NextSample};

use byteorder::BigEndian;
use pcap_core::fields::{split_u16, split_u32};
use pcap_core::{PcapError, ResultParsing};
use pcap_items::stream::{Fill, HasHead, Held, Told, take_item};
use std::alloc::Global;
use std::io::Read;

/// The most bytes of a sample.
pub const SIZE_LIMIT: u16 = 1000;

/// The most bytes of a sample for which the numbers of heads have two bytes.
pub const SHORT_LIMIT: u16 = 8;

/// What the head of an item says.
#[derive(Clone, Copy)]
pub enum Head {
    /// The size of each sample after it, in bytes.
    Size(u16),
    /// A sample of this channel.
    Sample(u32),
}

/// The fault of a head.
#[derive(Clone, Copy)]
pub enum LogFault {
    /// A kind that no log has.
    UnknownKind,
    /// A size above `SIZE_LIMIT`.
    SizeTooLarge,
}

/// Why a call on a stream returns no item.
#[derive(Drop)]
pub enum LogError {
    /// The head is bad.
    Refused(LogFault),
    /// `IoError` if a read failed or the stream ended inside the item. `OutOfMemory` if its bytes can't be held.
    Stopped(PcapError),
}

/// The items of a log with samples of this size.
#[derive(Clone, Copy)]
pub struct SamplesOf {
    /// The size of a sample, in bytes.
    pub size: u16,
}

// Returns what a kind and a number say, and how many bytes follow, for samples of this size.
#[tactic(auto, unfolding(crate::specs::Samples::meaning))]
fn head_of(size: u16, kind: u16, number: u32) -> Result<(Head, usize), LogFault>
    ensures { HeadTells (meaning size kind number) result }
{
    match kind {
        1 if number > u32::from(SIZE_LIMIT) => Err(LogFault::SizeTooLarge),
        1 => Ok((Head::Size(number as u16), 0)),
        2 => Ok((Head::Sample(number), usize::from(size))),
        _ => Err(LogFault::UnknownKind),
    }
}

// Returns the length of a head for samples of this size.
pub(crate) fn head_len(size: u16) -> usize
    ensures { result ≡ head_length size }
{
    if size > SHORT_LIMIT { 6 } else { 4 }
}

// Returns the number in a head for samples of this size: its bytes after the kind.
fn number_of(size: u16, bytes: &[u8]) -> u32
    requires { length bytes.now ≡ number_width size }
    ensures { Number big_number (number_width size) result bytes.now [] }
{
    if size > SHORT_LIMIT {
        split_u32::<BigEndian>(bytes).0
    } else {
        u32::from(split_u16::<BigEndian>(bytes).0)
    }
}

// Returns what the bytes of a head say, and how many bytes follow, for samples of this size.
pub(crate) fn head_in(size: u16, bytes: &[u8]) -> Result<(Head, usize), LogFault>
    requires { length bytes.now ≡ head_length size }
    ensures { BytesTell size bytes.now result }
{
    let (kind, after) = split_u16::<BigEndian>(bytes);
    head_of(size, kind, number_of(size, after))
}

impl HasHead for SamplesOf {
    ghost use Rattle.test_formats.specs.Samples.{Item, KnowsTold};

    // A bad head is known as one, but isn't reported as an error of captures.
    type Head = Result<Head, LogFault>;

    ghost State = { ℕ };

    ghost Value = { Item };

    ghost format = { λ samples. sample_format };

    ghost state = { λ samples. samples.size };

    ghost knows = { λ samples told n bytes. KnowsTold samples.size told n bytes };

    #[tactic(auto, unfolding(crate::specs::Samples::sample_format))]
    fn head(&self) -> usize {
        head_len(self.size)
    }

    fn stated(&self, bytes: &[u8]) -> ResultParsing<(Result<Head, LogFault>, usize)> {
        match head_in(self.size, bytes) {
            Ok((head, n)) => Ok((Ok(head), n)),
            Err(fault) => Ok((Err(fault), 0)),
        }
    }
}

/// Reads the items of a log from a stream, one for each call of `next_head`, and lends the bytes of a sample.
///
/// `next_head` returns None if the stream ends between items. After its first error, it returns None for good.
#[derive(Drop)]
pub struct SampleReader<T> {
    fill: Fill<T>,
    size: u16,
    // the length of the held head
    start: usize,
    is_done: bool,
    ghost unfailed: { is_done ≡ false → source_failed fill ≡ false },
}

impl<T: Read + Drop> SampleReader<T> {
    ghost use Rattle.test_formats.specs.SampleReader.{stream_of, has_failed, is_done, bytes_of, bytes_held, size_of};

    /// Makes a reader of the log that this stream gives.
    pub fn new(alloc: Global, stream: T) -> SampleReader<T>
        ensures stream { stream_of result ≡ stream }
        ensures size { size_of result ≡ 0 }
        ensures unfailed { has_failed result ≡ false }
        ensures ready { is_done result ≡ false }
    {
        SampleReader {
            fill: Fill::new(alloc, Told::new(stream)),
            size: 0,
            start: 0,
            is_done: false,
        }
    }

    /// Returns the head of the next item. From then on, the reader lends the bytes of that item.
    ///
    /// After a bad head, the reader takes no more bytes.
    pub fn next_head(&mut self) -> Option<Result<Head, LogError>>
        ensures next { NextSample (size_of self.old) (held_item (size_of self.old) (bytes_held self.new)) (T.remaining (stream_of self.old)) (T.remaining (stream_of self.new)) (is_done self.old) (is_done self.new) (has_failed self.old) (has_failed self.new) result }
        ensures size { size_of self.new ≡ size_behind (size_of self.old) result }
        ensures bytes { bytes_of self.new ≡ drop (head_length (size_of self.old)) (bytes_held self.new) }
    {
        self.fill.clear();
        self.start = head_len(self.size);
        if self.is_done {
            return None;
        }
        let head = fill_next(self.size, &mut self.fill);
        self.is_done = head.is_err();
        if let Ok(Some(Head::Size(size))) = head {
            self.size = size;
        }
        head.transpose()
    }

    /// Returns the bytes of the item whose head `next_head` returned last.
    pub fn bytes(&self) -> &[u8]
        ensures { result.now ≡ bytes_of self.now }
    {
        let held = self.fill.held();
        if held.len() < self.start {
            return &[];
        }
        let (_head, bytes) = held.split_at(self.start);
        bytes
    }

    /// Returns the stream.
    pub fn get_ref(&self) -> &T
        ensures { result.now ≡ stream_of self.now }
    {
        self.fill.get_ref()
    }

    /// Returns whether a read of the stream failed.
    pub fn failed(&self) -> bool
        ensures { result ≡ has_failed self.now }
    {
        self.fill.failed()
    }
}

// Holds the next item with its head.
fn fill_next<T: Read>(size: u16, fill: &mut Fill<T>) -> Result<Option<Head>, LogError>
    requires between { held_of fill.old ≡ [] }
    requires unfailed { source_failed fill.old ≡ false }
    ensures { TakesSample size (held_item size (held_of fill.new)) (T.remaining (source_of fill.old)) (T.remaining (source_of fill.new)) (source_failed fill.new) result }
{
    match fill.item(&SamplesOf { size }) {
        Ok(None) => Ok(None),
        Ok(Some(Ok(head))) => Ok(Some(head)),
        Ok(Some(Err(fault))) => Err(LogError::Refused(fault)),
        Err(error) => Err(LogError::Stopped(error)),
    }
}

/// Takes the next item from a stream, for samples of this size: its head, and its bytes in a vector. Returns None exactly at the end of
/// the stream. Nothing is held before the call, nor after an `Ok`.
///
/// Its errors are those of `next_head`.
pub fn take_next<T: Read>(
    alloc: Global,
    size: u16,
    stream: &mut T,
    has_failed: &mut bool,
    held: &mut Held,
) -> Result<Option<(Head, Vec<u8>)>, LogError>
    requires between { held_bytes held.old ≡ [] }
    requires unfailed { has_failed.old ≡ false }
    ensures takes { TakesSample size (λ x. item_with x.0 x.1.items) (T.remaining stream.old) (T.remaining stream.new) has_failed.new result }
    ensures between { OnOk result (held_bytes held.new ≡ []) }
{
    match take_item(alloc, &SamplesOf { size }, stream, has_failed, held) {
        Ok(None) => Ok(None),
        Ok(Some((Ok(head), bytes))) => Ok(Some((head, bytes))),
        Ok(Some((Err(fault), _none))) => Err(LogError::Refused(fault)),
        Err(error) => Err(LogError::Stopped(error)),
    }
}
