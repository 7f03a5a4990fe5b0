//! Packets as the items of runs.

ghost use Rattle.pcap_core.specs.Bytes.{IsBorrowed};
ghost use Rattle.pcap_items.specs.Items.{ShowsFault};
ghost use Rattle.pcap_classic.specs.declared.pcap.header.PcapHeader.{PcapHeader};
ghost use Rattle.pcap_classic.specs.PacketText.{packet_limit, Captured, content_of};
ghost use Rattle.pcap_classic.specs.Packets.{capture_format};
ghost use Rattle.pcap_classic.specs.Parser.{header_of};

use crate::pcap::{Packet, PcapParser};
use pcap_core::PcapError;
use pcap_items::run::{Found, Items, found_in};
use std::alloc::AllocError;

impl<'a> Items<'a> for PcapParser {
    type Item = Packet<'a>;

    type Refusal = PcapError;

    ghost State = { PcapHeader };

    ghost Value = { Captured };

    ghost Part = { Captured };

    ghost format = { capture_format packet_limit };

    ghost state = { header_of };

    ghost part = { λ packet. packet };

    ghost view = { content_of };

    ghost lent = { λ packet. IsBorrowed packet.data_ };

    ghost shows = { ShowsFault };

    ghost grows = { λ _ _. ⊥ };

    fn next_item(
        &mut self,
        slice: &'a [u8],
    ) -> Result<Found<(&'a [u8], Packet<'a>), PcapError>, AllocError> {
        found_in(self.next_packet(slice))
    }
}
