//! Functions that count items and their bytes.

ghost use Rattle.std.specs.Prelude.{◌≡◌, ◌<◌, ◌^◌, [], true, false};
ghost use Rattle.pcap_items.specs.Format.{IsLawful};
ghost use Rattle.pcap_classic.specs.Magic.{is_magic};
ghost use Rattle.pcap_classic.specs.PacketText.{packet_limit};
ghost use Rattle.pcap_classic.specs.Packets.{reader_format};
ghost use Rattle.pcap_walk.specs.CountedItems.{CountsItem, CountsItems};

use crate::packets::Packets;
use crate::walking::{Ended, Sink, Walked, Walker, walk};
use pcap_classic::pcap::PcapHeader;
use pcap_core::PcapError;
use std::alloc::Global;
use std::io;
use std::io::{BufRead, Write};

/// The most items that are counted.
const MOST: u64 = 18_446_744_073_709_551_614;

/// The type of reasons to stop for a sink that never stops: it has no value.
#[derive(Clone, Copy)]
pub enum Never {}

/// A count of the bytes of items. The largest number means that many bytes or more.
#[derive(Debug, Drop)]
pub struct Counting {
    /// The number of bytes.
    pub bytes: u64,
}

impl<F, H> Sink<F, H> for Counting {
    ghost use Rattle.std.specs.Prelude.{⊤, true};

    type Stop = Never;

    ghost fits = { λ walker head text. ⊤ };

    ghost gives = { λ index walker head text old out new out_now result. CountsItem text old.bytes out new.bytes out_now result };

    ghost is_unready = { λ stop. ⊥ };

    ghost wants = { λ index counting. true };

    #[inline(always)]
    fn wants(&self, _index: u64) -> bool {
        true
    }

    #[inline(always)]
    fn item<W: Write>(
        &mut self,
        _output: &mut W,
        _index: u64,
        _walker: &F,
        _head: &H,
        text: &[u8],
    ) -> Result<(), Never> {
        self.bytes = self.bytes.saturating_add(text.len() as u64);
        Ok(())
    }

    #[inline(always)]
    fn wait<W: Write>(&self, _output: &mut W) -> Result<(), Never> {
        Ok(())
    }
}

/// Counts the items that a walker meets, at most 2^64 - 2, and returns the error of the first item that can't be taken. The
/// function holds an item in memory, one at a time, only if the walker does not find it whole in the input's buffer.
pub fn count_items<F: Walker, R: BufRead>(
    walker: &mut F,
    input: &mut R,
    walked: &mut Walked,
    counting: &mut Counting,
) -> Option<PcapError>
    requires lawful { IsLawful (F.format (F.setting walker.old)) }
    requires between { F.held walker.old ≡ [] }
    requires none_yet { walked.old.items ≡ 0 }
    requires unfailed { walked.old.read_failed ≡ false }
    requires room { counting.old.bytes < 2 ^ 64 }
    ensures counts { CountsItems (F.format (F.setting walker.old)) (F.state walker.old) (R.remaining input.old) (R.remaining input.new) walked.new.read_failed 18446744073709551614
        walked.old.items walked.new.items counting.old.bytes counting.new.bytes result }
{
    match walk(walker, input, &mut io::sink(), counting, MOST, walked) {
        Ended::AtEnd => None,
        Ended::AtMost => None,
        Ended::Refused(error) => Some(error),
        Ended::Stopped(_) => None,
    }
}

/// Counts the packets after a header as `count_items` does.
pub fn count_packets<R: BufRead>(
    alloc: Global,
    header: &PcapHeader,
    input: &mut R,
    walked: &mut Walked,
    counting: &mut Counting,
) -> Option<PcapError>
    requires valid { is_magic header.now.magic_number ≡ true }
    requires none_yet { walked.old.items ≡ 0 }
    requires unfailed { walked.old.read_failed ≡ false }
    requires room { counting.old.bytes < 2 ^ 64 }
    ensures counts { CountsItems (reader_format packet_limit header.now) tt (R.remaining input.old) (R.remaining input.new) walked.new.read_failed 18446744073709551614
        walked.old.items walked.new.items counting.old.bytes counting.new.bytes result }
{
    count_items(&mut Packets::new(alloc, header), input, walked, counting)
}
