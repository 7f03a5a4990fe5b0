//! Counting packets in time spans.

ghost use Rattle.std.specs.Prelude.{◌≡◌, ◌+◌, ◌*◌, ◌/◌, ◌%◌, ◌^◌, ◌<◌, ◌≤◌, ◌↔◌, ◌++◌, ◌∷◌, [], ℕ, List, count_by, IsTrue};
ghost use Rattle.pcapfile_run.specs.Passing.{counted};
ghost use Rattle.pcapfile_info.specs.Spreads.{count_at, HasRoom, IsFine, lies_in, Rows, Spreads};

use crate::spread::{SPANS, Spread};

// Returns the index of a span among the counts.
fn slot_of(span: u64) -> usize
    ensures place { result ≡ span % 64 }
    ensures within { result < 64 }
{
    (span % 64) as usize
}

// Returns the first span from this one on that has this index.
fn span_at(first: u64, slot: usize) -> u64
    requires small { first < 2 ^ 63 }
    requires within { slot < 64 }
    ensures from { first ≤ result }
    ensures near { result < first + 64 }
    ensures place { result % 64 ≡ slot }
{
    first + (slot as u64 + 64 - first % 64) % 64
}

impl Spread {
    /// Returns the row of one packet.
    pub(crate) fn new(instant: u64) -> Spread
        ensures { Spreads (instant ∷ []) result }
    {
        let mut packets = [0; SPANS];
        packets[slot_of(instant)] = 1;
        Spread {
            width: 1,
            first: instant,
            last: instant,
            packets,
        }
    }

    /// Returns how many packets are in the span of this number: 0 outside of the row.
    pub fn packets_in(&self, span: u64) -> u64
        ensures within { self.now.first ≤ span → span ≤ self.now.last → result ≡ count_at self.now span }
        ensures beyond { ((self.now.first ≤ span) × (span ≤ self.now.last) → ⊥) → result ≡ 0 }
        ensures counts { (instants : List ℕ) → Rows instants self.now → result ≡ counted (count_by (lies_in self.now.width span) instants) }
    {
        if self.first <= span && span <= self.last {
            self.packets[slot_of(span)]
        } else {
            0
        }
    }

    // Returns how many packets are in the span of this number if spans are twice as wide.
    fn packets_in_both(&self, span: u64) -> u64
        ensures { (instants : List ℕ) → Rows instants self.now → result ≡ counted (count_by (lies_in (self.now.width * 2) span) instants) }
    {
        if span > self.last / 2 {
            return 0;
        }
        self.packets_in(span * 2)
            .saturating_add(self.packets_in(span * 2 + 1))
    }

    // Returns the same packets in spans twice as wide.
    fn doubled(&self) -> Spread
        requires { self.now.width < 2 ^ 63 }
        ensures rows { (instants : List ℕ) → Rows instants self.now → Rows instants result }
        ensures width { result.width ≡ self.now.width * 2 }
        ensures first { result.first ≡ self.now.first / 2 }
        ensures last { result.last ≡ self.now.last / 2 }
    {
        let first = self.first / 2;
        let mut packets = [0; SPANS];
        for slot in 0..SPANS {
            packets[slot] = self.packets_in_both(span_at(first, slot));
        }
        Spread {
            width: self.width * 2,
            first,
            last: self.last / 2,
            packets,
        }
    }

    // Returns true only for an instant in the last span, where most packets are. The test needs no division.
    #[inline(always)]
    fn is_in_last(&self, instant: u64) -> bool
        ensures { IsTrue result → instant / self.now.width ≡ self.now.last }
    {
        let start = self.last * self.width;
        start <= instant && instant - start < self.width
    }

    // Returns whether the row has room for the span of this number.
    fn has_room(&self, span: u64) -> bool
        ensures { IsTrue result ↔ HasRoom self.now span }
    {
        self.last.max(span) - self.first.min(span) < SPANS as u64
    }

    // Widens the spans until the row has room for this instant.
    fn widen(&mut self, instant: u64)
        ensures room { HasRoom self.new (instant / self.new.width) }
        ensures fine { (instants : List ℕ) → Spreads instants self.old → Rows instants self.new × IsFine (instants ++ instant ∷ []) self.new.width }
    {
        let mut spread = *self;
        while !spread.has_room(instant / spread.width) {
            spread = spread.doubled();
        }
        *self = spread;
    }

    // Counts one packet in this span.
    fn put(&mut self, span: u64)
        requires room { HasRoom self.old span }
        requires bounded { span * self.old.width < 2 ^ 64 }
        ensures width { self.new.width ≡ self.old.width }
        ensures rows { (instants : List ℕ) (instant : ℕ) → Rows instants self.old → instant / self.old.width ≡ span → Rows (instants ++ instant ∷ []) self.new }
    {
        let slot = slot_of(span);
        self.packets[slot] = self.packets[slot].saturating_add(1);
        self.first = self.first.min(span);
        self.last = self.last.max(span);
    }

    // Counts one packet in any span.
    #[inline(never)]
    fn add_anywhere(&mut self, instant: u64)
        ensures { (instants : List ℕ) → Spreads instants self.old → Spreads (instants ++ instant ∷ []) self.new }
    {
        let span = instant / self.width;
        if self.has_room(span) {
            self.put(span);
        } else {
            self.widen(instant);
            self.put(instant / self.width);
        }
    }

    /// Counts one packet.
    #[inline(always)]
    pub(crate) fn add(&mut self, instant: u64)
        ensures { (instants : List ℕ) → Spreads instants self.old → Spreads (instants ++ instant ∷ []) self.new }
    {
        if self.is_in_last(instant) {
            self.put(self.last);
        } else {
            self.add_anywhere(instant);
        }
    }
}
