//! The packets that a cut writes.

ghost use Rattle.std.specs.Prelude.{◌≡◌, ◌↔◌, IsTrue};
ghost use Rattle.pcapfile_cut.specs.Changes.{changes_of};
ghost use Rattle.pcapfile_cut.specs.Choice.{WantsMore, dedup_of, is_new, remembers, repeats, takes};
ghost use Rattle.pcapfile_cut.specs.Duplicates.{most_remembered, remembered};
ghost use Rattle.pcapfile_cut.specs.Selections.{captured};

use crate::changing::Changes;
use crate::duplicates::Recent;
use crate::selection::Selection;
use pcap_classic::pcap::PacketHeader;

/// The packets that a cut writes, out of those after the header or after an earlier cut.
#[derive(Clone, Copy)]
pub enum Wanted<'a> {
    /// All packets.
    All,
    /// The packets from one number to another, both included; the first packet has number 1. The cut reads nothing after the
    /// last.
    Numbers {
        /// The number of the first wanted packet.
        first: u64,
        /// The number of the last wanted packet.
        last: u64,
    },
    /// The first packets, until they have at least this many bytes. The cut reads nothing after them.
    Bytes(u64),
    /// The packets that pass the tests of this selection, without duplicates. The cut reads nothing after the last number of its ranges.
    Selected(&'a Selection<'a>),
}

/// What a cut does with a packet. It does neither if the packet fails a test.
#[derive(Clone, Copy)]
pub(crate) struct Choice {
    pub(crate) is_written: bool,
    pub(crate) is_duplicate: bool,
}

impl Wanted<'_> {
    // Returns whether the cut goes on after this many packets of this many bytes.
    pub(crate) fn wants_more(self, packets: u64, bytes: u64) -> bool
        ensures { IsTrue result ↔ WantsMore self.entry packets bytes }
    {
        match self {
            Wanted::All => packets < u64::MAX,
            Wanted::Numbers { last, .. } => packets < last,
            Wanted::Bytes(most) => packets < u64::MAX && bytes < most,
            Wanted::Selected(selection) => packets < u64::MAX && selection.has_more(packets),
        }
    }

    // Returns how many of the packets before it a packet is compared with.
    pub(crate) fn dedup(self) -> u32
        ensures { result ≡ dedup_of self.entry }
    {
        match self {
            Wanted::All | Wanted::Numbers { .. } | Wanted::Bytes(_) => 0,
            Wanted::Selected(selection) => selection.dedup,
        }
    }

    // Returns the changes of the packets that the cut writes.
    pub(crate) fn changes(self) -> Changes
        ensures { result ≡ changes_of self.entry }
    {
        match self {
            Wanted::All | Wanted::Numbers { .. } | Wanted::Bytes(_) => Changes::NONE,
            Wanted::Selected(selection) => selection.changes,
        }
    }

    // Returns whether the packet of this number passes the tests.
    pub(crate) fn takes(self, number: u64, head: &PacketHeader, data: &[u8]) -> bool
        ensures { result ≡ takes self.entry number (captured head.now data.now) }
    {
        match self {
            Wanted::Numbers { first, last } => first <= number && number <= last,
            Wanted::All | Wanted::Bytes(_) => true,
            Wanted::Selected(selection) => selection.takes(number, head, data),
        }
    }

    // Returns whether the packet of this number is written, and whether it is left out as a duplicate of one of the recent packets. If it
    // passes the tests, it is recent from now on.
    pub(crate) fn choose(
        self,
        recent: &mut Recent,
        number: u64,
        head: &PacketHeader,
        bytes: &[u8],
    ) -> Choice
        requires { most_remembered recent.old ≡ dedup_of self }
        ensures written { result.is_written ≡ is_new self.entry (remembered recent.old) number (captured head.now bytes.now) }
        ensures duplicate { result.is_duplicate ≡ repeats self.entry (remembered recent.old) number (captured head.now bytes.now) }
        ensures recent { remembered recent.new ≡ remembers self.entry (remembered recent.old) number (captured head.now bytes.now) }
        ensures most { most_remembered recent.new ≡ most_remembered recent.old }
    {
        if !self.takes(number, head, bytes) {
            return Choice {
                is_written: false,
                is_duplicate: false,
            };
        }
        let is_duplicate = recent.repeats(head.orig_len, bytes);
        Choice {
            is_written: !is_duplicate,
            is_duplicate,
        }
    }
}
