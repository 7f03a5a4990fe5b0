//! Counts of packets.

ghost use Rattle.std.specs.Prelude.{◌≡◌, ◌<◌, ◌++◌, ◌∷◌, [], ℕ, List, Some, IsTrue, ◌↔◌};
ghost use Rattle.pcapfile_info.specs.declared.seen.Seen.{Seen};
ghost use Rattle.pcapfile_info.specs.Tallies.{instant_of, IsAfter, IsBefore, IsFirstWith, IsOrderWith, IsSpread, IsSpreadWith, no_tally, size_class, Tallies};

use crate::seen::Seen;
use crate::spread::Spread;
use pcap_file::pcapng::Timestamp;

/// The number of classes of lengths.
pub const CLASSES: usize = 10;

/// The least length of each class, in bytes.
pub const LEAST: [u32; CLASSES] = [0, 20, 40, 80, 160, 320, 640, 1280, 2560, 5120];

/// The nanoseconds in a second.
const BILLION: u64 = 1_000_000_000;

/// Counts of a set of packets. A number above 2^64 - 1 is reported as 2^64 - 1.
#[derive(Clone, Copy, Debug, PartialEq, Eq)]
pub struct Tally {
    /// The number of packets.
    pub packets: u64,
    /// The number of stored bytes.
    pub stored: u64,
    /// The sum of the original lengths, in bytes.
    pub original: u64,
    /// The earliest time of a packet. `None` if no packet has a time.
    pub earliest: Option<Timestamp>,
    /// The latest time of a packet. `None` if no packet has a time.
    pub latest: Option<Timestamp>,
    /// Whether no packet has a time before that of an earlier packet. Packets without a time don't count.
    pub in_order: bool,
    /// The number of packets whose original length is in each class.
    pub sizes: [u64; CLASSES],
    /// The number of packets in each time span. `None` if no packet has a time.
    pub spread: Option<Spread>,
}

fn is_before(left: Timestamp, right: Timestamp) -> bool
    ensures { IsTrue result ↔ IsBefore left right }
{
    left < right
}

// Keeps the earlier of a time and the known one, if any.
#[inline(always)]
fn keep_earlier(known: &mut Option<Timestamp>, time: Timestamp)
    ensures { IsFirstWith IsBefore known.old (Some time) known.new }
{
    if let Some(first) = known {
        if is_before(*first, time) {
            return;
        }
    }
    *known = Some(time);
}

// Keeps the later of a time and the known one, if any. Times are no longer in order if the time is before the known one.
#[inline(always)]
fn keep_later(known: &mut Option<Timestamp>, in_order: &mut bool, time: Timestamp)
    ensures latest { IsFirstWith IsAfter known.old (Some time) known.new }
    ensures order { IsOrderWith known.old (Some time) in_order.old in_order.new }
{
    if let Some(last) = known {
        if is_before(time, *last) {
            *in_order = false;
            return;
        }
    }
    *known = Some(time);
}

// Returns the nanoseconds from 1970 to a time: 0 before 1970, and at most 2^64 - 1.
fn instant_of(time: Timestamp) -> u64
    ensures { result ≡ instant_of time }
{
    if time.seconds < 0 {
        return 0;
    }
    match u64::try_from(time.seconds) {
        Ok(seconds) => seconds
            .saturating_mul(BILLION)
            .saturating_add(u64::from(time.nanoseconds)),
        Err(_) => u64::MAX,
    }
}

// Counts an instant in its time span.
#[inline(always)]
fn add_instant(spread: &mut Option<Spread>, instant: u64)
    ensures { (instants : List ℕ) → IsSpread instants spread.old → IsSpread (instants ++ instant ∷ []) spread.new }
{
    match spread {
        None => *spread = Some(Spread::new(instant)),
        Some(spread) => spread.add(instant),
    }
}

// Returns the class of a length.
fn class_of(original: u32) -> usize
    ensures class { result ≡ size_class original }
    ensures within { result < 10 }
{
    match original {
        0..20 => 0,
        20..40 => 1,
        40..80 => 2,
        80..160 => 3,
        160..320 => 4,
        320..640 => 5,
        640..1280 => 6,
        1280..2560 => 7,
        2560..5120 => 8,
        _ => 9,
    }
}

impl Tally {
    /// Returns the counts of no packets.
    pub(crate) fn new() -> Tally
        ensures tallies { Tallies [] result }
        ensures is { result ≡ no_tally }
    {
        Tally {
            packets: 0,
            stored: 0,
            original: 0,
            earliest: None,
            latest: None,
            in_order: true,
            sizes: [0; CLASSES],
            spread: None,
        }
    }

    // Counts the time of one packet, if it has one.
    #[inline(always)]
    fn add_time(&mut self, time: Option<Timestamp>)
        ensures same { (self.new.packets ≡ self.old.packets) × (self.new.stored ≡ self.old.stored)
            × (self.new.original ≡ self.old.original) × (self.new.sizes ≡ self.old.sizes) }
        ensures earliest { IsFirstWith IsBefore self.old.earliest time self.new.earliest }
        ensures latest { IsFirstWith IsAfter self.old.latest time self.new.latest }
        ensures order { IsOrderWith self.old.latest time self.old.in_order self.new.in_order }
        ensures spread { IsSpreadWith self.old.spread time self.new.spread }
    {
        let Some(time) = time else {
            return;
        };
        keep_earlier(&mut self.earliest, time);
        keep_later(&mut self.latest, &mut self.in_order, time);
        add_instant(&mut self.spread, instant_of(time));
    }

    /// Counts one packet.
    #[inline(always)]
    pub(crate) fn add(&mut self, seen: Seen)
        ensures { (packets : List Seen) → Tallies packets self.old → Tallies (packets ++ seen ∷ []) self.new }
    {
        let class = class_of(seen.original);
        self.sizes[class] = self.sizes[class].saturating_add(1);
        self.packets = self.packets.saturating_add(1);
        self.stored = self.stored.saturating_add(seen.stored);
        self.original = self.original.saturating_add(u64::from(seen.original));
        self.add_time(seen.time);
    }
}
