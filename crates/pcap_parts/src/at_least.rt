//! Finds the places at which a capture can be cut into parts of a least number of bytes.

ghost use Rattle.pcap_classic.specs.HeaderText.{LacksHeader, HasHeaderFault};
ghost use Rattle.pcap_core.specs.Answer.{Refuses, lacks, faulty};
ghost use Rattle.pcap_core.specs.Errors.{IsMemory};
ghost use Rattle.pcap_ng.specs.Blocks.{MayGrow};
ghost use Rattle.pcap_ng.specs.Opening.{OpeningSays};
ghost use Rattle.pcap_ng.specs.State.{opening};
ghost use Rattle.pcap_parts.specs.Captures.{HasHeader, IsCut, IsCutAtLeast};
ghost use Rattle.pcap_parts.specs.NgParts.{HasOpening, IsNgCut, IsNgCutAtLeast};
ghost use Rattle.pcap_parts.specs.Places.{TellAllPlaces};
ghost use Rattle.std.specs.Prelude.{◌⊎◌, ⊤, max, IfOk, IfErr};

use crate::cut::{Cuts, cut_packets};
use crate::cut_ng::{NgCuts, cut_ng_by};
use crate::parting::Parting;
use pcap_classic::pcap::PcapParser;
use pcap_core::ResultParsing;
use std::alloc::Global;

/// Returns the places at which a capture can be cut into parts of at least `at_least` bytes, so that no packet is torn. 0 bytes count
/// as one.
///
/// A part begins at the first packet boundary that is at least this many bytes behind the beginning of the part before it and has
/// bytes behind it, and nowhere else. So each part but the last has at least this many bytes of packets, and would have fewer without
/// its last packet. The last part is as long as what is left. Each packet is skipped once.
///
/// The errors are those of `PcapParser::new`, and `OutOfMemory` if the list of cuts cannot grow.
pub fn cut_pcap_at_least(alloc: Global, bytes: &[u8], at_least: usize) -> ResultParsing<Cuts>
    ensures cut { IfOk result (λ x. IsCut x.header x.cuts.items bytes.now) }
    ensures steps { IfOk result (λ x. IsCutAtLeast (max at_least 1) x.header x.cuts.items bytes.now) }
    ensures refused { IfErr result (Refuses ⊤ (LacksHeader bytes.now) (HasHeaderFault bytes.now)) }
    ensures memory { IfErr result (λ e. IsMemory e → HasHeader bytes.now) }
{
    let (after, parser) = PcapParser::new(bytes)?;
    let cuts = cut_packets(
        alloc,
        &parser,
        after,
        bytes.len(),
        Parting::AtLeast(at_least.max(1)),
    )?;
    Ok(Cuts {
        header: *parser.header(),
        cuts,
    })
}

/// Returns the places at which a PcapNg capture can be cut into parts of at least `at_least` bytes, so that no block is torn, and the
/// places of what is in force at each cut. 0 bytes count as one.
///
/// The parts begin behind the first section header, and are as long as those of `cut_pcap_at_least` behind a capture's header. `resume`
/// makes the parser of each part again, from the places of its cut. Each block is skipped once, and only the bodies of section
/// headers and interface descriptions are read.
///
/// The errors are those of `PcapNgParser::new`, and `OutOfMemory` if there is no memory for the cuts, the places or what is in force.
pub fn cut_pcapng_at_least(alloc: Global, bytes: &[u8], at_least: usize) -> ResultParsing<NgCuts>
    ensures cut { IfOk result (λ cuts. IsNgCut cuts bytes.now) }
    ensures steps { IfOk result (λ cuts. IsNgCutAtLeast (max at_least 1) cuts.cuts.items bytes.now) }
    ensures places { IfOk result (λ cuts. TellAllPlaces bytes.now cuts.interfaces.items cuts.cuts.items) }
    ensures refused { IfErr result (Refuses ⊤ (λ n. OpeningSays bytes.now (lacks n)) (λ fault. OpeningSays bytes.now (faulty fault))) }
    ensures memory { IfErr result (λ e. IsMemory e → MayGrow opening bytes.now ⊎ HasOpening bytes.now) }
{
    cut_ng_by(alloc, bytes, Parting::AtLeast(at_least.max(1)))
}
