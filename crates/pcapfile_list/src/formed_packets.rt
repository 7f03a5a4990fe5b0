//! Listing the packets of a classic capture in a given form.

ghost use Rattle.std.specs.Prelude.{IfSome};
ghost use Rattle.pcap_program.specs.Exits.{exit_of};
ghost use Rattle.capcopy_run.specs.Listing.{ListsUntil};
ghost use Rattle.pcapfile_list.specs.FormedLines.{packets_as};
ghost use Rattle.pcapfile_list.specs.WalkedLists.{IsResultOf};

use crate::formed_items::write_item;
use crate::seen::seen_of_header;
use pcap_file::pcap::{PacketHeader, PcapHeader};
use pcap_program::Exit;
use pcap_walk::{Ended, Packets, Sink, Walked, walk};
use pcapfile_lines::Form;
use std::alloc::Global;
use std::io::{BufRead, Write};

/// The size of a packet's header in bytes.
const HEADER: usize = 16;

// A writer of packets in a form.
#[derive(Drop)]
struct FormedPackets {
    alloc: Global,
    form: Form,
}

impl<F> Sink<F, PacketHeader> for FormedPackets {
    ghost use Rattle.std.specs.Prelude.{◌≡◌, ◌≤◌, length, true};
    ghost use Rattle.pcap_program.specs.Lines.{WritesLine};
    ghost use Rattle.pcap_walk.specs.MetPackets.{met_packet};
    ghost use Rattle.pcapfile_list.specs.FormedLines.{IsPacketIn};
    ghost use Rattle.pcapfile_list.specs.WalkedLists.{IsFailedWrite};

    type Stop = Exit;

    ghost fits = { λ walker head text. 16 ≤ length text };

    ghost gives = { λ index walker head text old out new out_now result.
        (new ≡ old) × WritesLine (IsPacketIn old.form index (met_packet head text)) out out_now result };

    ghost is_unready = { IsFailedWrite };

    ghost wants = { λ index packets. true };

    fn wants(&self, _index: u64) -> bool {
        true
    }

    fn item<W: Write>(
        &mut self,
        output: &mut W,
        index: u64,
        _walker: &F,
        head: &PacketHeader,
        text: &[u8],
    ) -> Result<(), Exit> {
        let seen = seen_of_header(*head);
        write_item(
            self.alloc,
            output,
            self.form,
            index,
            Some(seen),
            &text[HEADER..],
        )
    }

    fn wait<W: Write>(&self, output: &mut W) -> Result<(), Exit> {
        output.flush()?;
        Ok(())
    }
}

// Returns how a list ends whose walk ended like this.
fn result_of(ended: Ended<Exit>) -> Result<(), Exit>
    ensures { IsResultOf ended result }
{
    match ended {
        Ended::AtEnd => Ok(()),
        Ended::AtMost => Err(Exit::Most),
        Ended::Refused(error) => Err(Exit::from(error)),
        Ended::Stopped(exit) => Err(exit),
    }
}

/// Writes each packet of a classic capture in this form, up to `most` packets. Only a packet that is cut by the end of the input's buffer
/// is held in memory.
pub(crate) fn list_packets<R: BufRead, W: Write>(
    alloc: Global,
    form: Form,
    input: &mut R,
    output: &mut W,
    most: u64,
) -> Result<(), Exit>
    ensures { IfSome (R.remaining input.old) (λ s. ListsUntil (packets_as form) most s (R.remaining input.new)
        (W.contents output.old) (W.contents output.new) (exit_of result)) }
{
    let header = PcapHeader::from_reader(input)?;
    let mut walked = Walked {
        items: 0,
        read_failed: false,
    };
    let mut packets = Packets::new(alloc, &header);
    let mut formed = FormedPackets { alloc, form };
    let ended = walk(&mut packets, input, output, &mut formed, most, &mut walked);
    result_of(ended)
}
