//! Counting packets and blocks that are read leniently.

ghost use Rattle.std.specs.Prelude.{◌≡◌, ◌+◌};
ghost use Rattle.pcap_tolerant.specs.AsIs.{breaks_one};
ghost use Rattle.pcapfile_as_is.specs.Counts.{counted, one_if};

use pcap_tolerant::HeadAsIs;

/// The number of packets or blocks so far, and the offset of the next one. The greatest 64-bit number represents all above it.
#[derive(Clone, Copy, Debug, PartialEq, Eq)]
pub struct Counted {
    /// The number of packets or blocks.
    pub items: u64,
    /// The number of packets or blocks with a flaw.
    pub flawed: u64,
    /// The number of bytes before the next one.
    pub bytes: u64,
}

/// The facts about a packet or block that are counted.
#[derive(Clone, Copy, Debug, PartialEq, Eq)]
pub struct Told {
    /// Whether it has a number, and counts among the items of its capture.
    pub has_number: bool,
    /// Whether it has a flaw.
    pub has_flaw: bool,
}

/// The number of a packet or block, and where it is.
#[derive(Clone, Copy)]
pub struct Spot {
    /// Its number in its capture.
    pub number: u64,
    /// The offset of its first byte in its capture.
    pub place: u64,
}

// Returns 1 if the condition holds, and 0 otherwise.
fn count_if(holds: bool) -> u64
    ensures { result ≡ one_if holds }
{
    if holds { 1 } else { 0 }
}

impl Counted {
    /// Counts one more packet, with this header.
    pub fn add(&mut self, head: &HeadAsIs)
        ensures items { self.new.items ≡ counted (self.old.items + 1) }
        ensures flawed { self.new.flawed ≡ counted (self.old.flawed + one_if (breaks_one head.now.flaws)) }
        ensures bytes { self.new.bytes ≡ counted (self.old.bytes + (16 + head.now.incl_len)) }
    {
        let told = Told {
            has_number: true,
            has_flaw: head.flaws.is_broken(),
        };
        self.add_item(16 + u64::from(head.incl_len), told);
    }

    /// Counts one more packet or block, of this many bytes, with these facts.
    pub fn add_item(&mut self, bytes: u64, told: Told)
        ensures items { self.new.items ≡ counted (self.old.items + one_if told.has_number) }
        ensures flawed { self.new.flawed ≡ counted (self.old.flawed + one_if told.has_flaw) }
        ensures bytes { self.new.bytes ≡ counted (self.old.bytes + bytes) }
    {
        self.items = self.items.saturating_add(count_if(told.has_number));
        self.flawed = self.flawed.saturating_add(count_if(told.has_flaw));
        self.bytes = self.bytes.saturating_add(bytes);
    }
}
