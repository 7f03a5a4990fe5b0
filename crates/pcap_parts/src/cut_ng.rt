//! Finds the places at which a PcapNg capture can be cut into parts.

ghost use Rattle.pcap_core.specs.Answer.{Refuses, lacks, faulty};
ghost use Rattle.pcap_core.specs.Errors.{IsMemory};
ghost use Rattle.pcap_ng.specs.Blocks.{MayGrow, block_format};
ghost use Rattle.pcap_ng.specs.Opening.{OpeningSays};
ghost use Rattle.pcap_ng.specs.Parser.{state_of};
ghost use Rattle.pcap_ng.specs.State.{opening};
ghost use Rattle.pcap_parts.specs.NgParts.{HasOpening, IsNgCut, IsNgCutBy, IsNgCutFairly, IsWalked, ResumesAt, bounds_of, places_at};
ghost use Rattle.pcap_parts.specs.Partings.{AreAskedFor, AsksSome};
ghost use Rattle.pcap_parts.specs.Parts.{AreCuts};
ghost use Rattle.pcap_parts.specs.Places.{IsPlaced, TellAllPlaces};
ghost use Rattle.std.specs.List.{AllByRecursion};
ghost use Rattle.std.specs.Prelude.{◌≡◌, ◌≤◌, ◌-◌, ◌⊎◌, ⊤, length, drop, IfOk, IfErr};

use crate::cut::Cut;
use crate::parting::Parting;
use crate::skip::Passed;
use crate::walk::Walk;
use pcap_core::ResultParsing;
use pcap_ng::pcapng::PcapNgParser;
use std::alloc::{AllocError, Global};

/// The beginning of a part of a PcapNg capture, and what is in force there.
#[repr(C)]
#[derive(Clone, Copy, Debug)]
pub struct NgCut {
    /// The beginning of the part. Blocks are counted from behind the first section header.
    pub at: Cut,
    /// The number of bytes of the capture before the section header in force.
    pub header: usize,
    /// The number of interface descriptions of the whole capture before those in force.
    pub first: usize,
    /// The number of interfaces in force.
    pub interfaces: usize,
}

/// The beginnings of the parts of a PcapNg capture, and the places of its interfaces.
#[derive(Debug, Drop)]
pub struct NgCuts {
    /// The beginning of each part. The first part begins behind the first section header. A part ends where the next one begins, and
    /// the last one ends with the bytes.
    pub cuts: Vec<NgCut>,
    /// The number of bytes of the capture before each interface description, in order, at least up to the last cut.
    pub interfaces: Vec<usize>,
}

impl NgCuts {
    /// Returns the places of the interface descriptions in force at a cut, in order, as `resume` takes them.
    pub fn interfaces_at(&self, cut: &NgCut) -> &[usize]
        ensures { result.now ≡ places_at self.now.interfaces.items cut.now }
    {
        let places = self.interfaces.as_slice();
        let from = &places[cut.first.min(places.len())..];
        &from[..cut.interfaces.min(from.len())]
    }
}

// Returns a cut at the position of a walk.
pub(crate) fn cut_at(walk: &Walk, offset: usize, before: usize) -> NgCut
    requires { walk.now.first ≤ length walk.now.interfaces.items }
    ensures at { (result.at.offset ≡ offset) × (result.at.before ≡ before) }
    ensures header { result.header ≡ walk.now.header }
    ensures interfaces { (result.first ≡ walk.now.first) × (result.interfaces ≡ length walk.now.interfaces.items - walk.now.first) }
{
    NgCut {
        at: Cut { offset, before },
        header: walk.header,
        first: walk.first,
        interfaces: walk.interfaces.len() - walk.first,
    }
}

// Returns the beginnings of the parts of the blocks behind the first section header.
pub(crate) fn cut_blocks(
    alloc: Global,
    bytes: &[u8],
    walk: &mut Walk,
    slice: &[u8],
    parting: Parting,
) -> Result<Vec<NgCut>, AllocError>
    requires walked { IsWalked bytes.now slice.now (state_of walk.old.parser) walk.old.header (drop walk.old.first walk.old.interfaces.items) }
    requires within { walk.old.first ≤ length walk.old.interfaces.items }
    requires placed { IsPlaced bytes.now slice.now (state_of walk.old.parser) walk.old.header walk.old.first walk.old.interfaces.items }
    requires some { AsksSome parting }
    ensures cuts { IfOk result
        (λ cuts. AreCuts block_format (state_of walk.old.parser) slice.now (length bytes.now - length slice.now) (length bytes.now) (bounds_of cuts.items)) }
    ensures asked { IfOk result (λ cuts. AreAskedFor block_format (state_of walk.old.parser) slice.now (length bytes.now) parting (bounds_of cuts.items)) }
    ensures resume { IfOk result (λ cuts. AllByRecursion (ResumesAt bytes.now walk.new.interfaces.items (state_of walk.old.parser) slice.now) cuts.items) }
    ensures places { IfOk result (λ cuts. TellAllPlaces bytes.now walk.new.interfaces.items cuts.items) }
{
    let mut cuts = Vec::new(alloc);
    cuts.push(cut_at(walk, bytes.len() - slice.len(), 0))?;
    let mut before = 0;
    let mut left = slice;
    while let Some(wanted) = parting.wanted(slice.len() - left.len(), slice.len()) {
        let Passed { items, after, rest } = walk.skip(bytes, left, wanted)?;
        if rest.is_some() || after.is_empty() {
            return Ok(cuts);
        }
        before += items;
        left = after;
        cuts.push(cut_at(walk, bytes.len() - left.len(), before))?;
    }
    Ok(cuts)
}

// Returns the places at which a PcapNg capture can be cut into the requested parts.
pub(crate) fn cut_ng_by(alloc: Global, bytes: &[u8], parting: Parting) -> ResultParsing<NgCuts>
    requires some { AsksSome parting }
    ensures cut { IfOk result (λ cuts. IsNgCut cuts bytes.now) }
    ensures asked { IfOk result (λ cuts. IsNgCutBy parting cuts.cuts.items bytes.now) }
    ensures places { IfOk result (λ cuts. TellAllPlaces bytes.now cuts.interfaces.items cuts.cuts.items) }
    ensures refused { IfErr result (Refuses ⊤ (λ n. OpeningSays bytes.now (lacks n)) (λ fault. OpeningSays bytes.now (faulty fault))) }
    ensures memory { IfErr result (λ e. IsMemory e → MayGrow opening bytes.now ⊎ HasOpening bytes.now) }
{
    let (after, parser) = PcapNgParser::new(alloc, bytes)?;
    let mut walk = Walk {
        parser,
        header: 0,
        interfaces: Vec::new(alloc),
        first: 0,
    };
    let cuts = cut_blocks(alloc, bytes, &mut walk, after, parting)?;
    Ok(NgCuts {
        cuts,
        interfaces: walk.interfaces,
    })
}

/// Returns the places at which a PcapNg capture can be cut into `parts` parts of equal length, so that no block is torn, and the places
/// of what is in force at each cut. The last part may be shorter or longer, and each other part differs by less than a block.
///
/// The bytes behind the first section header are shared as `cut_pcap` shares those behind a capture's header. `resume` makes the parser
/// of each part again, from the places of its cut. Each block before the last part is skipped once, and only the bodies of section
/// headers and interface descriptions are read.
///
/// The errors are those of `PcapNgParser::new`, and `OutOfMemory` if there is no memory for the cuts, the places or what is in force.
pub fn cut_pcapng(alloc: Global, bytes: &[u8], parts: usize) -> ResultParsing<NgCuts>
    ensures cut { IfOk result (λ cuts. IsNgCut cuts bytes.now) }
    ensures fair { IfOk result (λ cuts. IsNgCutFairly parts cuts.cuts.items bytes.now) }
    ensures places { IfOk result (λ cuts. TellAllPlaces bytes.now cuts.interfaces.items cuts.cuts.items) }
    ensures refused { IfErr result (Refuses ⊤ (λ n. OpeningSays bytes.now (lacks n)) (λ fault. OpeningSays bytes.now (faulty fault))) }
    ensures memory { IfErr result (λ e. IsMemory e → MayGrow opening bytes.now ⊎ HasOpening bytes.now) }
{
    cut_ng_by(alloc, bytes, Parting::Equal(parts))
}
