//! Finds the places at which a classic capture can be cut into parts.

ghost use Rattle.pcap_classic.specs.HeaderText.{LacksHeader, HasHeaderFault};
ghost use Rattle.pcap_classic.specs.PacketText.{packet_limit};
ghost use Rattle.pcap_classic.specs.Packets.{format_under};
ghost use Rattle.pcap_classic.specs.Parser.{header_of};
ghost use Rattle.pcap_core.specs.Answer.{Refuses};
ghost use Rattle.pcap_core.specs.Errors.{IsMemory};
ghost use Rattle.pcap_parts.specs.Captures.{HasHeader, IsCut, IsCutFairly};
ghost use Rattle.pcap_parts.specs.Partings.{AreAskedFor, AsksSome};
ghost use Rattle.pcap_parts.specs.Parts.{AreCuts, IsToNextEnd, share_of};
ghost use Rattle.std.specs.Prelude.{◌≤◌, ◌-◌, ⊤, length, IfOk, IfErr};

use crate::parting::Parting;
use crate::skip::{Passed, skip_packets};
use pcap_classic::pcap::{PcapHeader, PcapParser};
use pcap_core::ResultParsing;
use std::alloc::{AllocError, Global};

/// The beginning of a part of a capture.
#[repr(C)]
#[derive(Clone, Copy, Debug)]
pub struct Cut {
    /// The number of bytes of the capture before this part.
    pub offset: usize,
    /// The number of items of the capture before this part: packets, without the header.
    pub before: usize,
}

/// The header of a capture, and the beginnings of its parts.
#[derive(Debug, Drop)]
pub struct Cuts {
    /// The header of the capture.
    pub header: PcapHeader,
    /// The beginning of each part. The first part begins behind the header. A part ends where the next one begins, and the last one
    /// ends with the bytes.
    pub cuts: Vec<Cut>,
}

/// Returns the number of bytes from the `passed` bytes to the end of the next share, if `parts` parts share the bytes equally. A share
/// is a whole number of bytes, rounded up. Returns `None` behind the ends of all shares but the last.
pub fn to_next_end(passed: usize, bytes: usize, parts: usize) -> Option<usize>
    ensures { IsToNextEnd (share_of bytes parts) parts passed result }
{
    if parts < 2 {
        return None;
    }
    let share = bytes.saturating_sub(1) / parts + 1;
    if passed / share >= parts - 1 {
        return None;
    }
    Some(share - passed % share)
}

// Returns the beginnings of the parts of the packets behind a header. The bytes end at the place `total`.
pub(crate) fn cut_packets(
    alloc: Global,
    parser: &PcapParser,
    slice: &[u8],
    total: usize,
    parting: Parting,
) -> Result<Vec<Cut>, AllocError>
    requires within { length slice.now ≤ total }
    requires some { AsksSome parting }
    ensures cuts { IfOk result (λ cuts. AreCuts (format_under packet_limit (header_of parser.now)) tt slice.now (total - length slice.now) total cuts.items) }
    ensures asked { IfOk result (λ cuts. AreAskedFor (format_under packet_limit (header_of parser.now)) tt slice.now total parting cuts.items) }
{
    let mut cuts = Vec::new(alloc);
    cuts.push(Cut {
        offset: total - slice.len(),
        before: 0,
    })?;
    let mut before = 0;
    let mut left = slice;
    while let Some(wanted) = parting.wanted(slice.len() - left.len(), slice.len()) {
        let Passed { items, after, rest } = skip_packets(parser, left, wanted);
        if rest.is_some() || after.is_empty() {
            return Ok(cuts);
        }
        before += items;
        left = after;
        cuts.push(Cut {
            offset: total - left.len(),
            before,
        })?;
    }
    Ok(cuts)
}

/// Returns the places at which a capture can be cut into `parts` parts of equal length, so that no packet is torn. The last part may
/// be shorter or longer, and each other part differs by less than a packet.
///
/// The bytes behind the header are shared equally, in whole bytes, rounded up. A part begins at the first packet boundary at or behind
/// the end of each share but the last, if bytes follow it. There are fewer parts than requested only if a packet is longer than a
/// share, the packets end before the bytes, or no bytes follow the end of a share because shares are rounded up. The bytes from one
/// cut to the next are whole packets, and those from the last cut on are what is left. 0 parts count as one. Each packet before the
/// last part is skipped once.
///
/// The errors are those of `PcapParser::new`, and `OutOfMemory` if the list of cuts cannot grow.
pub fn cut_pcap(alloc: Global, bytes: &[u8], parts: usize) -> ResultParsing<Cuts>
    ensures cut { IfOk result (λ x. IsCut x.header x.cuts.items bytes.now) }
    ensures fair { IfOk result (λ x. IsCutFairly parts x.header x.cuts.items bytes.now) }
    ensures refused { IfErr result (Refuses ⊤ (LacksHeader bytes.now) (HasHeaderFault bytes.now)) }
    ensures memory { IfErr result (λ e. IsMemory e → HasHeader bytes.now) }
{
    let (after, parser) = PcapParser::new(bytes)?;
    let cuts = cut_packets(alloc, &parser, after, bytes.len(), Parting::Equal(parts))?;
    Ok(Cuts {
        header: *parser.header(),
        cuts,
    })
}
