//! The first pass over a classic capture, and the entries that it keeps.

ghost use Rattle.std.specs.Prelude.{◌≡◌, [], true, false};
ghost use Rattle.pcap_classic.specs.Magic.{is_magic};
ghost use Rattle.pcapfile_sort.specs.Reading.{KeepsEntry, ReadsEntries};

use crate::entry::Entry;
use crate::packets::time_of;
use pcap_classic::pcap::{PacketHeader, PcapHeader};
use pcap_walk::{Ended, Packets, Sink, Walked, walk};
use std::alloc::Global;
use std::io;
use std::io::{BufRead, Write};

/// The reason why the entry of a record is not kept.
#[derive(Clone, Copy, Debug)]
pub(crate) enum Unkept {
    /// There is no memory for it.
    Memory,
    /// There are more bytes or sections than a sort counts.
    TooLong,
}

/// The entries of the records that were read.
#[derive(Debug, Drop)]
pub(crate) struct Entries {
    pub(crate) list: Vec<Entry>,
    /// The number of bytes of the capture before the next record.
    pub(crate) place: u64,
}

impl Entries {
    /// Returns no entries, of a capture whose first record follows this many bytes.
    pub(crate) fn new(alloc: Global, place: u64) -> Entries
        ensures list { result.list.items ≡ [] }
        ensures place { result.place ≡ place }
    {
        Entries {
            list: Vec::new(alloc),
            place,
        }
    }

    /// Keeps the entry of the next record, which has this rank and this many bytes.
    #[inline(always)]
    pub(crate) fn keep(&mut self, rank: u128, bytes: usize) -> Result<(), Unkept>
        ensures { KeepsEntry rank bytes self.old self.new result }
    {
        let Some(end) = self.place.checked_add(bytes as u64) else {
            return Err(Unkept::TooLong);
        };
        let entry = Entry {
            rank,
            place: self.place,
            length: bytes,
        };
        match self.list.push(entry) {
            Ok(()) => {
                self.place = end;
                Ok(())
            }
            Err(_) => Err(Unkept::Memory),
        }
    }
}

impl<F> Sink<F, PacketHeader> for Entries {
    ghost use Rattle.std.specs.Prelude.{◌≤◌, length, true};
    ghost use Rattle.std.specs.Io.KnownBytes.{Keeps};
    ghost use Rattle.pcapfile_sort.specs.Reading.{KeepsPacket};

    type Stop = Unkept;

    ghost fits = { λ walker head text. 16 ≤ length text };

    ghost gives = { λ index walker head text old out new out_now result. KeepsPacket head text old new result × Keeps out out_now };

    ghost is_unready = { λ stop. ⊥ };

    ghost wants = { λ index entries. true };

    #[inline(always)]
    fn wants(&self, _index: u64) -> bool {
        true
    }

    #[inline(always)]
    fn item<W: Write>(
        &mut self,
        _output: &mut W,
        _index: u64,
        _walker: &F,
        head: &PacketHeader,
        text: &[u8],
    ) -> Result<(), Unkept> {
        self.keep(u128::from(time_of(*head)), text.len())
    }

    #[inline(always)]
    fn wait<W: Write>(&self, _output: &mut W) -> Result<(), Unkept> {
        Ok(())
    }
}

/// Reads the packets after a header, and keeps an entry for each, up to the end of the capture or the first error.
pub(crate) fn read_entries<R: BufRead>(
    alloc: Global,
    header: &PcapHeader,
    input: &mut R,
    walked: &mut Walked,
    entries: &mut Entries,
) -> Ended<Unkept>
    requires valid { is_magic header.now.magic_number ≡ true }
    requires none_yet { walked.old.items ≡ 0 }
    requires unfailed { walked.old.read_failed ≡ false }
    requires empty { entries.old.list.items ≡ [] }
    ensures { ReadsEntries header.now (R.remaining input.old) walked.new.read_failed entries.old.place entries.new result }
{
    let mut packets = Packets::new(alloc, header);
    walk(
        &mut packets,
        input,
        &mut io::sink(),
        entries,
        u64::MAX,
        walked,
    )
}
