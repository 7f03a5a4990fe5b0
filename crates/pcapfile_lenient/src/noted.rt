//! Repairs of packets and blocks that keep the rules that the last one breaks.

ghost use Rattle.std.specs.Prelude.{◌≡◌};

use pcap_file::pcapng::BlockType;
use pcap_file::{Rule, TsResolution};
use pcap_program::Exit;
use pcap_tolerant::{Flaws, PacketAsIs};
use pcap_tolerant_blocks::{Broken, Flaw};
use pcap_tolerant_captures::{LentAsIs, PcapNgReaderAsIs};
use pcapfile_as_is::{BlockTeller, Spot, Teller, Told};
use std::alloc::{AllocError, Global};
use std::io::Write;

/// A teller of packets that keeps the flaws of the last one.
#[derive(Drop)]
pub(crate) struct NotedPackets<P> {
    /// The teller.
    pub(crate) teller: P,
    /// The flaws.
    pub(crate) flaws: Option<Flaws>,
}

/// A teller of blocks that keeps the rule that the last one breaks.
#[derive(Drop)]
pub(crate) struct NotedBlocks<B> {
    /// The teller.
    pub(crate) teller: B,
    /// The rule of the first flaw, if a rule names it, or the refusal of memory to find it out.
    pub(crate) rule: Result<Option<Rule>, AllocError>,
    /// Whether the block is a section header without a flaw. The teller may then change only the length that it declares.
    pub(crate) is_sound_section: bool,
}

/// Returns the rules that a packet breaks, in the order of the messages on its changes.
pub(crate) fn rules_of(flaws: Flaws) -> [Option<Rule>; 3] {
    let if_broken = |is_broken: bool, rule: Rule| if is_broken { Some(rule) } else { None };
    let original = if_broken(flaws.original_too_long, Rule::OriginalTooLong);
    [
        if_broken(flaws.fraction_too_large, Rule::FractionTooLarge),
        if_broken(flaws.included_too_long, Rule::IncludedTooLong),
        original.or(if_broken(flaws.included_past_original, Rule::IncludedPastOriginal)),
    ]
}

// Returns the rule of the first of these flaws, if a rule names it.
fn first_rule(flaws: &[Flaw]) -> Option<Rule> {
    match flaws.first()?.broken {
        Broken::Rule(rule) => Some(rule),
        Broken::NotUtf8 | Broken::TooShort => None,
    }
}

// Returns the rule of the first flaw of the block that a reader lends, if a rule names it.
fn rule_in<T>(reader: &PcapNgReaderAsIs<T>, lent: &LentAsIs) -> Result<Option<Rule>, AllocError> {
    if !lent.flaws.is_empty() {
        return Ok(first_rule(lent.flaws.as_slice()));
    }
    if let Some(read) = reader.enhanced(lent.header)? {
        return Ok(first_rule(read.flaws.as_slice()));
    }
    if let Some(read) = reader.packet_block(lent.header)? {
        return Ok(first_rule(read.flaws.as_slice()));
    }
    match reader.simple(lent.header)? {
        Some(read) => Ok(first_rule(read.flaws.as_slice())),
        None => Ok(None),
    }
}

impl<P: Teller> Teller for NotedPackets<P> {
    ghost Setting = { P.Setting };

    ghost setting = { λ noted. P.setting noted.teller };

    ghost text = { P.text };

    fn put<W: Write>(
        &mut self,
        alloc: Global,
        output: &mut W,
        ts_resolution: TsResolution,
        at: Spot,
        packet: &PacketAsIs<'_>,
    ) -> Result<(), Exit> {
        self.flaws = Some(packet.flaws);
        self.teller.put(alloc, output, ts_resolution, at, packet)
    }
}

impl<B: BlockTeller> BlockTeller for NotedBlocks<B> {
    ghost Setting = { B.Setting };

    ghost setting = { λ noted. B.setting noted.teller };

    ghost is_told = { B.is_told };

    fn put<T, W: Write>(
        &mut self,
        alloc: Global,
        output: &mut W,
        at: Spot,
        reader: &PcapNgReaderAsIs<T>,
        lent: &LentAsIs,
    ) -> Result<Told, Exit> {
        let is_section = matches!(lent.header.type_, BlockType::SectionHeader);
        self.is_sound_section = is_section && lent.flaws.is_empty();
        let told = self.teller.put(alloc, output, at, reader, lent)?;
        self.rule = if told.has_flaw {
            rule_in(reader, lent)
        } else {
            Ok(None)
        };
        Ok(told)
    }
}
