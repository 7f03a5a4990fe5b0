//! Runs over a capture that shows exactly the bytes that the parser requests.

ghost use Rattle.std.specs.Prelude.{◌≡◌, ◌⊎◌, ◌++◌, ◌∷◌, [], All, IfOk, IfErr};
ghost use Rattle.pcap_core.specs.Answer.{Refuses};
ghost use Rattle.pcap_core.specs.Bytes.{IsBorrowed};
ghost use Rattle.pcap_core.specs.Errors.{IsMemory};
ghost use Rattle.pcap_items.specs.Window.{bytes_of, shown_of, requests_made};
ghost use Rattle.pcap_classic.specs.Exact.{IsExact};
ghost use Rattle.pcap_classic.specs.HeaderText.{LacksHeader, HasHeaderFault};
ghost use Rattle.pcap_classic.specs.Run.{HasPacket};

use crate::pcap::PcapParser;
use crate::run::{PcapRun, Rest, Window};
use pcap_core::{PcapError, ResultParsing};
use pcap_items::run::show_items;
use std::alloc::Global;

/// The number of bytes of a capture's header.
const HEADER_BYTES: usize = 24;

/// Reads a whole capture from a window that has shown no bytes yet, and counts the requests. The window shows bytes only
/// when the parser requests them. The packets are lent from the bytes.
///
/// The requests are those of the format: 24 bytes for the capture's header ('File Header'), and for each packet 16 bytes
/// and then its data, if it has any ('Packet Record'). If fewer bytes are left than requested, the parser isn't called
/// again, and the rest is `Needs` of the difference. After the last packet the parser requests nothing.
///
/// Returns the header's error if the header is malformed, and `IncompleteBuffer` if it is truncated; in both cases only its
/// 24 bytes were requested. `OutOfMemory` if the list of packets can't grow; then the number of bytes shown is not
/// specified.
pub fn exact_pcap<'a>(alloc: Global, window: &mut Window<'a>) -> ResultParsing<(PcapRun<'a>, u64)>
    requires { shown_of window.old ≡ 0 }
    ensures bytes { bytes_of window.new ≡ bytes_of window.old }
    ensures run { IfOk result (λ x. IsExact x.0 x.1 (bytes_of window.old) (requests_made window.old) (requests_made window.new)) }
    ensures borrowed { IfOk result (λ x. All (λ packet. IsBorrowed packet.data_) x.0.packets.items) }
    ensures asked { IfErr result (λ e. IsMemory e ⊎ (requests_made window.new ≡ requests_made window.old ++ 24 ∷ [])) }
    ensures refused { IfErr result (Refuses (HasPacket (bytes_of window.old)) (LacksHeader (bytes_of window.old)) (HasHeaderFault (bytes_of window.old))) }
{
    let shown = window.ask(HEADER_BYTES);
    if shown < HEADER_BYTES {
        return Err(PcapError::IncompleteBuffer(HEADER_BYTES - shown));
    }
    let (_, mut parser) = PcapParser::new(window.seen())?;
    let mut requests = 1;
    let run = show_items(alloc, &mut parser, window, &mut requests)?;
    let run = PcapRun {
        header: *parser.header(),
        packets: run.items,
        used: run.used,
        rest: Rest::from(run.ended),
    };
    Ok((run, requests))
}
