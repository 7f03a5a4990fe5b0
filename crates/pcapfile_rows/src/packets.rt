//! Packets of a damaged classic capture: which of its bytes are packets.

use crate::change::Change;
use crate::window::Window;
use pcap_damaged::{
    NEAR, Numbers, Weight, begins_capture, begins_near, can_be_this_long, follow_by_length,
    follows, head_at, resync, weigh,
};
use pcap_file::pcap::{PACKET_LIMIT, PcapHeader};
use pcap_file::{Endianness, PcapParser, ResultParsing, Rule, TsResolution};
use std::io;
use std::io::BufRead;

/// The longest packet that lenient reading returns, in bytes.
pub const LIMIT: u32 = 16_777_216;

/// The length of a packet's head, in bytes.
const HEAD: usize = 16;

/// The length of a capture's header, in bytes.
pub const HEADER: usize = 24;

/// The number of nanoseconds in a microsecond.
const MICROSECOND: u32 = 1_000;

/// The number of microseconds in a second.
const SECOND: u32 = 1_000_000;

/// The most bytes needed to be sure that packets go on at a place: four packets that break no rule have no more.
pub(crate) const ROW: usize = 4 * (HEAD + PACKET_LIMIT as usize);

/// The length of the longest packet that is usual on networks, in bytes.
const USUAL: u32 = 1_518;

/// The number of packets that must stand behind one whose time is far from the one before.
const BEHIND: usize = 3;

/// The packets of a capture, as far as they are read.
#[derive(Drop)]
pub(crate) struct Packets {
    /// The header in force, as a parser of its packets.
    parser: PcapParser,
    /// The same header without a snapshot length.
    unlimited: PcapParser,
    /// The first header, under which all packets are given.
    first: PcapParser,
    /// The time of the packet before in seconds, if there is one.
    time: Option<u32>,
    /// The stored length of the longest packet so far.
    longest: u32,
    /// Whether the next packet was found by resynchronization.
    is_found: bool,
    /// The number of bytes left in a short run of packets, which may lie inside another packet.
    run: usize,
    /// Whether the next packet was reported as one of such a run.
    is_reported: bool,
    /// Whether the last packet was reported as a guess.
    was_reported: bool,
    /// Whether the length of the next packet was changed, and is right.
    is_settled: bool,
    /// The number of bytes of the last packet, if nothing confirms where it ends.
    unconfirmed: Option<usize>,
    /// The number of bytes after the next packet that its stored length claimed before it was shortened by a guess.
    claimed: usize,
    /// Whether anything was changed or skipped.
    is_damaged: bool,
}

/// What is at the front of the window.
#[derive(Clone, Copy)]
pub(crate) enum Here {
    /// The header of another capture.
    Header,
    /// A packet of this many bytes.
    Packet(usize),
    /// A packet of this many bytes, whose link type is not that of the capture.
    OtherLink(usize),
    /// A packet of this many bytes after its head was changed.
    Changed(Change),
    /// Corrupt bytes, and the rule that they break, if any.
    Garbage(Option<Rule>),
    /// The beginning of a truncated packet.
    Torn,
}

impl Packets {
    /// Returns the packets after a header.
    pub(crate) fn new(header: PcapHeader) -> ResultParsing<Packets> {
        Ok(Packets {
            parser: PcapParser::with_header(header)?,
            unlimited: PcapParser::with_header(unlimited(&header))?,
            first: PcapParser::with_header(header)?,
            time: None,
            longest: USUAL,
            is_found: false,
            run: 0,
            is_reported: false,
            was_reported: false,
            is_settled: false,
            unconfirmed: None,
            claimed: 0,
            is_damaged: false,
        })
    }

    /// Puts the header at the front of these bytes in force.
    pub(crate) fn begin(&mut self, bytes: &[u8]) {
        let Ok((_rest, parser)) = PcapParser::new(bytes) else {
            return;
        };
        if let Ok(unlimited) = PcapParser::with_header(unlimited(parser.header())) {
            self.unlimited = unlimited;
        }
        self.parser = parser;
        self.time = None;
        self.unconfirmed = None;
    }

    /// Notes that the next packet was found by resynchronization.
    pub(crate) fn find(&mut self) {
        self.is_found = true;
        self.run = 0;
        self.claimed = 0;
    }

    /// Returns whether the packets have the link type of the capture, so that they are kept.
    pub(crate) fn is_kept(&self) -> bool {
        self.first.header().datalink == self.parser.header().datalink
    }

    /// Returns the parser of the header in force.
    pub(crate) fn parser(&self) -> &PcapParser {
        &self.parser
    }

    /// Returns the time that packets are expected near, in seconds.
    pub(crate) fn time_by(&self, head: Option<Numbers>) -> u32 {
        match (self.time, head) {
            (Some(time), _) => time,
            (None, Some(head)) => head.seconds,
            (None, None) => 0,
        }
    }

    /// Finds out what is at the front of the window.
    pub(crate) fn look<R: BufRead>(&mut self, window: &mut Window<R>) -> io::Result<Here> {
        let here = self.look_at(window)?;
        self.is_damaged = self.is_damaged || is_damage(here);
        Ok(here)
    }

    fn look_at<R: BufRead>(&mut self, window: &mut Window<R>) -> io::Result<Here> {
        window.reach(HEADER)?;
        if begins_capture(window.shown()) {
            return Ok(Here::Header);
        }
        let Some(head) = self.head(window.shown()) else {
            return Ok(Here::Torn);
        };
        if self.is_settled {
            self.is_settled = false;
            return Ok(self.take(window, head));
        }
        if self.is_found {
            self.begin_run(window, head)?;
        }
        let here = self.judge(window, head)?;
        Ok(self.after_doubt(here))
    }

    // Finds out how long the run of packets is that resynchronization found.
    fn begin_run<R: BufRead>(&mut self, window: &mut Window<R>, head: Numbers) -> io::Result<()> {
        self.is_found = false;
        self.is_reported = false;
        self.time = Some(head.seconds);
        self.run = self.short_run(window)?.max(self.claimed);
        Ok(())
    }

    // Returns the number of bytes in the run of packets at the front of the window, if it may lie inside a packet, and otherwise 0.
    fn short_run<R: BufRead>(&self, window: &mut Window<R>) -> io::Result<usize> {
        let bound = self.longest.min(self.limit()) as usize;
        window.reach(bound.saturating_add(HEAD + PACKET_LIMIT as usize + ROW))?;
        let bytes = window.shown();
        let mut at: usize = 0;
        for _ in 0..u64::MAX {
            if at > bound {
                break;
            }
            let left = bytes.get(at..).unwrap_or_default();
            let Some((head, _data)) = head_at(&self.parser, left) else {
                return Ok(at);
            };
            let end = HEAD.saturating_add(head.included as usize);
            let Some(behind) = left.get(end..) else {
                return Ok(at);
            };
            let is_last = behind.len() < HEAD;
            if !is_last && !follows(&self.parser, head.seconds, behind) {
                return Ok(at);
            }
            at = at.saturating_add(end);
        }
        Ok(0)
    }

    // Reports the last packet before corrupt bytes, if nothing confirms where it ends.
    fn after_doubt(&mut self, here: Here) -> Here {
        match (here, self.unconfirmed) {
            (Here::Garbage(_), Some(len)) => self.tell_unconfirmed(len),
            _ => here,
        }
    }

    // Reports the last packet, of this many bytes, as a guess: nothing confirms where it ends.
    fn tell_unconfirmed(&mut self, len: usize) -> Here {
        self.unconfirmed = None;
        self.was_reported = true;
        Here::Changed(Change::Unconfirmed(len))
    }

    // Finds out whether the head at the front of the window is that of a packet.
    fn judge<R: BufRead>(&mut self, window: &mut Window<R>, head: Numbers) -> io::Result<Here> {
        let time = self.time_by(Some(head));
        let end = HEAD.saturating_add(head.included as usize);
        if head.included <= LIMIT && window.reach(end.saturating_add(HEAD))? {
            let behind = window.shown().get(end..).unwrap_or_default();
            if begins_near(&self.parser, time, behind) {
                return self.take_confirmed(window, head, time);
            }
        }
        window.reach(end.min(HEAD + LIMIT as usize).saturating_add(ROW))?;
        match weigh(&self.parser, time, window.shown()) {
            Weight::Stands => self.stand(window, head, time),
            Weight::Length(length) => {
                let is_guess = head.original > PACKET_LIMIT;
                Ok(self.change(window, head, length, is_guess))
            }
            Weight::Wrong if head.included > self.limit() => self.exceed(window, head, time),
            Weight::Wrong => self.look_on(window, head, time),
            Weight::Short => Ok(Here::Torn),
        }
    }

    // Takes a packet behind which another one follows, unless its stored length is doubtful and packets go on inside its data, or its
    // head is zero bytes behind a guess or, in a damaged capture, behind a packet whose end nothing confirms.
    fn take_confirmed<R: BufRead>(
        &mut self,
        window: &mut Window<R>,
        head: Numbers,
        time: u32,
    ) -> io::Result<Here> {
        let is_doubted = self.was_reported || self.is_damaged && self.unconfirmed.is_some();
        if is_doubted && is_zero(head) {
            return self.look_on(window, head, time);
        }
        if head.included > head.original || head.included > self.limit() {
            let end = HEAD.saturating_add(head.included as usize);
            window.reach(end.saturating_add(ROW))?;
            if self
                .length_before_packets(window.shown(), head, time)
                .is_some()
            {
                return self.look_on(window, head, time);
            }
        }
        Ok(self.take(window, head))
    }

    // Returns the length of the data before the first place inside it from which packets go on, if the packet of this head can have it.
    fn length_before_packets(&self, bytes: &[u8], head: Numbers, time: u32) -> Option<u32> {
        let data = bytes.get(HEAD..).unwrap_or_default();
        let length = resync(&self.parser, time, data, head.included as usize)? as u32;
        if !can_be_this_long(&self.parser, time, bytes, length) {
            return None;
        }
        Some(length)
    }

    // Takes a packet whose length nothing speaks against, unless a better length is found, or its time is far from the one before and
    // no packets go on behind it.
    fn stand<R: BufRead>(
        &mut self,
        window: &mut Window<R>,
        head: Numbers,
        time: u32,
    ) -> io::Result<Here> {
        let end = HEAD.saturating_add(head.included as usize);
        let behind = window.shown().get(end..).unwrap_or_default();
        if follows(&self.parser, time, behind) {
            return Ok(self.take(window, head));
        }
        if let Some((length, is_guess)) = self.whole_length(window.shown(), head, time) {
            return Ok(self.change(window, head, length, is_guess));
        }
        if !can_be_this_long(&self.parser, time, window.shown(), head.included)
            && !self.stand_behind(window, head)?
        {
            return self.look_on(window, head, time);
        }
        Ok(self.take_unconfirmed(window, head))
    }

    // Takes a packet that is longer than the snapshot length if nothing else speaks against it, and its next packets stand too.
    fn exceed<R: BufRead>(
        &mut self,
        window: &mut Window<R>,
        head: Numbers,
        time: u32,
    ) -> io::Result<Here> {
        let weight = weigh(&self.unlimited, head.seconds, window.shown());
        if weight != Weight::Stands || !self.stand_behind(window, head)? {
            return self.look_on(window, head, time);
        }
        let end = HEAD.saturating_add(head.included as usize);
        let behind = window.shown().get(end..).unwrap_or_default();
        if follows(&self.unlimited, head.seconds, behind) {
            return self.take_confirmed(window, head, time);
        }
        Ok(self.take_unconfirmed(window, head))
    }

    // Takes a packet, and notes that nothing confirms where it ends.
    fn take_unconfirmed<R>(&mut self, window: &mut Window<R>, head: Numbers) -> Here {
        let was_reported = self.is_reported;
        let here = self.take(window, head);
        if !was_reported {
            self.unconfirmed = Some(HEAD.saturating_add(head.included as usize));
        }
        here
    }

    // Returns whether the next packets behind the one of this head stand too, whatever their length, as far as there are any.
    fn stand_behind<R: BufRead>(&self, window: &mut Window<R>, head: Numbers) -> io::Result<bool> {
        let most = (BEHIND + 1) * (HEAD + PACKET_LIMIT as usize);
        window.reach(most.saturating_add(ROW))?;
        let mut here = head;
        let mut left = window.shown();
        for _ in 0..BEHIND {
            let end = HEAD.saturating_add(here.included as usize);
            left = left.get(end..).unwrap_or_default();
            let Some((next, _data)) = head_at(&self.unlimited, left) else {
                return Ok(true);
            };
            match weigh(&self.unlimited, here.seconds, left) {
                Weight::Stands => {}
                Weight::Wrong => return Ok(begins_capture(left)),
                _ => return Ok(true),
            }
            here = next;
        }
        Ok(true)
    }

    // Returns whether other packets follow the one at the front by their lengths, and none go on inside its data.
    fn stands_by_length(&self, bytes: &[u8], head: Numbers, time: u32) -> bool {
        let data = bytes.get(HEAD..).unwrap_or_default();
        follow_by_length(&self.parser, bytes)
            && resync(&self.parser, time, data, head.included as usize).is_none()
    }

    // Returns the longest data that a packet of the capture may have.
    fn limit(&self) -> u32 {
        match self.parser.header().snaplen {
            0 => PACKET_LIMIT,
            snaplen => snaplen.min(PACKET_LIMIT),
        }
    }

    // Returns the length of the whole packet, or of as much of it as the capture stores, if packets go on there, and whether that is
    // a guess.
    fn whole_length(&self, bytes: &[u8], head: Numbers, time: u32) -> Option<(u32, bool)> {
        let length = head.original.min(self.limit());
        if length == head.included || !can_be_this_long(&self.parser, time, bytes, length) {
            return None;
        }
        let behind = bytes.get(HEAD.saturating_add(length as usize)..)?;
        if follows(&self.parser, time, behind) {
            return Some((length, head.original > PACKET_LIMIT));
        }
        if self.is_misstated(time, behind) {
            return Some((length, true));
        }
        None
    }

    // Returns whether a packet of this head, with its stored length, is before one whose stored length is wrong.
    fn is_before_misstated(&self, bytes: &[u8], head: Numbers, time: u32) -> bool {
        if !can_be_this_long(&self.parser, time, bytes, head.included) {
            return false;
        }
        match bytes.get(HEAD.saturating_add(head.included as usize)..) {
            Some(behind) => self.is_misstated(time, behind),
            None => false,
        }
    }

    // Returns whether the bytes begin with a packet near this time whose stored length is wrong, but not its original one.
    fn is_misstated(&self, time: u32, bytes: &[u8]) -> bool {
        let Some((head, data)) = head_at(&self.parser, bytes) else {
            return false;
        };
        let length = head.original.min(self.limit());
        if !can_be_this_long(&self.parser, time, bytes, length) {
            return false;
        }
        match data.get(length as usize..) {
            Some(behind) => follows(&self.parser, head.seconds, behind),
            None => false,
        }
    }

    // Takes the packet of this head, and puts its head in the form of the first header. A packet that is a guess is reported first.
    fn take<R>(&mut self, window: &mut Window<R>, head: Numbers) -> Here {
        if let Some(change) = self.guess(head) {
            self.is_reported = true;
            self.is_settled = true;
            return Here::Changed(change);
        }
        let end = HEAD.saturating_add(head.included as usize);
        self.time = Some(head.seconds);
        self.longest = self.longest.max(head.included);
        self.run = self.run.saturating_sub(end);
        self.was_reported = self.is_reported;
        self.is_reported = false;
        self.unconfirmed = None;
        if !self.is_kept() {
            return Here::OtherLink(end);
        }
        let (first, here) = (self.first.header(), self.parser.header());
        if first.magic_number != here.magic_number {
            let numbers = in_units_of(first.ts_resolution(), here.ts_resolution(), head);
            window.put(0, &bytes_of(&self.first, numbers));
        }
        Here::Packet(end)
    }

    // Returns why the packet of this head is a guess, if it is one and was not reported.
    fn guess(&self, head: Numbers) -> Option<Change> {
        if self.is_reported {
            return None;
        }
        if self.run > 0 {
            return Some(Change::Found);
        }
        if self.is_damaged && is_empty(head) || is_zero(head) && self.time.unwrap_or(0) > NEAR {
            return Some(Change::Empty);
        }
        None
    }

    // Finds out whether packets go on behind a head whose length is wrong, so that the bytes between may be its data.
    fn look_on<R: BufRead>(
        &mut self,
        window: &mut Window<R>,
        head: Numbers,
        time: u32,
    ) -> io::Result<Here> {
        let sure = window.reach_row()?;
        if self.is_before_misstated(window.shown(), head, time) {
            return Ok(self.take(window, head));
        }
        if let Some((length, is_guess)) = self.whole_length(window.shown(), head, time) {
            return Ok(self.change(window, head, length, is_guess));
        }
        if self.stands_by_length(window.shown(), head, time) {
            return Ok(self.take_unconfirmed(window, head));
        }
        let behind = window.shown().get(HEAD..).unwrap_or_default();
        let bound = sure.saturating_sub(HEAD).min(PACKET_LIMIT as usize + 1);
        if let Some(length) = resync(&self.parser, time, behind, bound) {
            let length = length as u32;
            if can_be_this_long(&self.parser, time, window.shown(), length) {
                if let Some(len) = self.unconfirmed {
                    return Ok(self.tell_unconfirmed(len));
                }
                self.find();
                if head.included <= self.limit() {
                    self.claimed = head.included.saturating_sub(length) as usize;
                }
                return Ok(self.change(window, head, length, true));
            }
        }
        if head.included > LIMIT {
            return Ok(Here::Garbage(Some(Rule::IncludedTooLong)));
        }
        Ok(Here::Garbage(self.rule(window.shown())))
    }

    // Puts another length into the head at the front of the window. Behind a guess the length is one too, and so may be what follows.
    fn change<R>(
        &mut self,
        window: &mut Window<R>,
        head: Numbers,
        length: u32,
        is_guess: bool,
    ) -> Here {
        let is_guess = is_guess || self.was_reported;
        if self.was_reported && !self.is_found {
            self.find();
        }
        let original = if head.original > PACKET_LIMIT {
            length
        } else {
            head.original.max(length)
        };
        let numbers = Numbers {
            included: length,
            original,
            ..head
        };
        let bytes = bytes_of(&self.parser, numbers);
        window.put(0, &bytes);
        self.is_settled = true;
        Here::Changed(Change::Length {
            stated: head.included,
            length,
            is_guess,
        })
    }

    fn head(&self, bytes: &[u8]) -> Option<Numbers> {
        let (head, _rest) = head_at(&self.parser, bytes)?;
        Some(head)
    }

    // Returns the rule that the packet at the front of these bytes breaks, if any.
    fn rule(&self, bytes: &[u8]) -> Option<Rule> {
        match self.parser.next_packet(bytes) {
            Ok(_) => None,
            Err(error) => error.rule(),
        }
    }
}

// Returns the same header without a snapshot length.
fn unlimited(header: &PcapHeader) -> PcapHeader {
    let mut header = *header;
    header.snaplen = 0;
    header
}

// Returns whether this is corrupt, or was changed. A packet without data is neither.
fn is_damage(here: Here) -> bool {
    match here {
        Here::Changed(Change::Empty) => false,
        Here::Changed(_) | Here::Garbage(_) => true,
        Here::Header | Here::Packet(_) | Here::OtherLink(_) | Here::Torn => false,
    }
}

// Returns whether a head is that of a packet without data.
fn is_empty(head: Numbers) -> bool {
    (head.included, head.original) == (0, 0)
}

// Returns whether all numbers of a head are 0.
fn is_zero(head: Numbers) -> bool {
    (head.seconds, head.fraction) == (0, 0) && is_empty(head)
}

// Returns the bytes of a head of this capture.
fn bytes_of(parser: &PcapParser, head: Numbers) -> [u8; HEAD] {
    let numbers = [head.seconds, head.fraction, head.included, head.original];
    let mut bytes = [0; HEAD];
    let (places, _rest) = bytes.as_chunks_mut::<4>();
    for (place, number) in places.iter_mut().zip(numbers) {
        *place = match parser.header().endianness() {
            Endianness::Big => number.to_be_bytes(),
            Endianness::Little => number.to_le_bytes(),
        };
    }
    bytes
}

// Returns a head whose fraction is in the units of one resolution and was in those of another.
fn in_units_of(to: TsResolution, from: TsResolution, head: Numbers) -> Numbers {
    match (to, from) {
        (TsResolution::NanoSecond, TsResolution::MicroSecond) => Numbers {
            seconds: head.seconds.saturating_add(head.fraction / SECOND),
            fraction: (head.fraction % SECOND).saturating_mul(MICROSECOND),
            ..head
        },
        (TsResolution::MicroSecond, TsResolution::NanoSecond) => Numbers {
            fraction: head.fraction / MICROSECOND,
            ..head
        },
        _ => head,
    }
}
