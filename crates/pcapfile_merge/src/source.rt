//! A capture that is merged with others.

ghost use Rattle.std.specs.Prelude.{◌≡◌, ◌<◌, ◌^◌, [], None, option_map, true};
ghost use Rattle.pcapfile_merge.specs.Holding as holding;
ghost use Rattle.pcapfile_merge.specs.Holding.{Holds, HoldsFew, IsReady, IsReadyIf, IsWhole, holds_interface, holds_untimed};

use crate::numbers::push_number;
use crate::packet::Pending;
use crate::reader::{Reader, Taken};
use pcap_file::PcapError;
use std::alloc::Global;
use std::io::Read;

/// A capture that is merged with others: its reader, which holds the packet or block that it gives next.
#[derive(Drop)]
pub struct Source<R> {
    alloc: Global,
    pub(crate) reader: Reader<R>,
    pub(crate) base: u32,
    pub(crate) numbers: Vec<u64>,
    pub(crate) taken: Taken,
    left_out: u64,
    ghost few: { HoldsFew reader taken.next },
    ghost ready: { IsReadyIf reader taken.next },
    ghost whole: { IsWhole taken },
    ghost room: { left_out < 2 ^ 64 },
}

impl<R: Read + Drop> Source<R> {
    ghost use Rattle.pcapfile_merge.specs.Sources.{Advances, AdvancesTo, Gave, numbers_of};

    /// Makes a source from a reader without an error, and takes its first packet or block. If that is refused, the source ends with that
    /// error (`fault`). `base` is the output's number of the interface of a classic capture.
    pub fn new(alloc: Global, reader: Reader<R>, base: u32) -> Source<R>
        requires { IsReady reader }
        ensures base { result.base ≡ base }
        ensures numbers { numbers_of result ≡ [] }
        ensures gave { Gave R.remaining reader result [] }
    {
        let mut reader = reader;
        let numbers = Vec::new(alloc);
        let taken = reader.take_next(alloc, base, numbers.as_slice());
        let left_out = left_out_next(taken.next, 0);
        Source {
            alloc,
            reader,
            base,
            numbers,
            taken,
            left_out,
        }
    }

    // Takes what comes next. If the source held an interface, that got this number in the output.
    #[inline(always)]
    pub(crate) fn advance(&mut self, number: u64)
        requires { Holds self.old.taken.next }
        ensures { Advances R.remaining number self.old self.new }
    {
        if self.holds_interface() {
            return self.advance_numbered(number);
        }
        match self.reader.next_there(self.base, self.numbers.as_slice()) {
            Some(pending) => self.taken.next = Some(pending),
            None => {
                self.taken.next = None;
                self.advance_any();
            }
        }
    }

    // Takes what comes after an interface that got this number in the output.
    #[cold]
    #[inline(never)]
    fn advance_numbered(&mut self, number: u64)
        requires holds { Holds self.old.taken.next }
        requires interface { holds_interface self.old.taken.next ≡ true }
        ensures { Advances R.remaining number self.old self.new }
    {
        self.taken.next = None;
        match push_number(&mut self.numbers, number) {
            Err(error) => self.taken.fault = Some(error),
            Ok(()) => self.advance_any(),
        }
    }

    // Takes what comes next, whether or not it is whole in the buffer.
    #[cold]
    #[inline(never)]
    fn advance_any(&mut self)
        requires nothing { self.old.taken.next ≡ None }
        requires ready { IsReady self.old.reader }
        ensures { AdvancesTo R.remaining (numbers_of self.old) self.old self.new }
    {
        let taken = self
            .reader
            .take_next(self.alloc, self.base, self.numbers.as_slice());
        self.left_out = left_out_next(taken.next, self.left_out);
        self.taken = taken;
    }
}

impl<R> Source<R> {
    // Returns what the source gives next, or None if it has no more.
    #[inline(always)]
    pub(crate) fn next(&self) -> &Option<Pending>
        ensures { result.now ≡ self.now.taken.next }
    {
        &self.taken.next
    }

    /// Returns whether the source gives an interface next.
    #[inline(always)]
    pub fn holds_interface(&self) -> bool
        ensures { result ≡ holds_interface self.now.taken.next }
    {
        match self.taken.next {
            None => false,
            Some(pending) => pending.is_interface,
        }
    }

    /// Returns whether the source gives something without a time next: an interface, a block that is kept, or a packet without a time.
    pub fn is_untimed(&self) -> bool
        ensures { result ≡ holds_untimed self.now.taken.next }
    {
        match self.taken.next {
            None => false,
            Some(pending) => pending.time.is_none(),
        }
    }

    /// Returns the reader, which holds what the source gives next.
    pub fn reader(&self) -> &Reader<R>
        ensures { result.now ≡ self.now.reader }
    {
        &self.reader
    }

    /// Returns how many options of the packets taken so far are left out. They are those of obsolete packet blocks.
    pub fn left_out(&self) -> u64
        ensures { result ≡ self.now.left_out }
    {
        self.left_out
    }

    /// Returns the error after what the source gave. Returns None if the capture ended after that or goes on.
    pub fn fault(&self) -> Option<&PcapError>
        ensures { option_map (λ error. error.now) result ≡ self.now.taken.fault }
    {
        self.taken.fault.as_ref()
    }
}

// Returns how many options are left out, after this many others, with the packet that was taken next.
fn left_out_next(next: Option<Pending>, others: u64) -> u64
    ensures { result ≡ holding.left_out_next next others }
{
    match next {
        None => others,
        Some(pending) => others.saturating_add(pending.left_out),
    }
}
