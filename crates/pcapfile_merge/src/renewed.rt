//! Obsolete packets as enhanced packets.

ghost use Rattle.std.specs.Prelude.{◌≡◌, ◌≢◌, ◌<◌, ◌++◌, ◌∷◌, [], length, map, true, false, IfErr, IfOk, MatchOption, MatchResult};
ghost use Rattle.pcap_core.specs.Errors.{IsMemory};
ghost use Rattle.pcap_blocks.specs.EnhancedPacket.{enhanced_of};
ghost use Rattle.pcap_blocks.specs.Packet.{packet_of};
ghost use Rattle.pcap_blocks.specs.ParsedBlock.{OldPacketBody, body_of};
ghost use Rattle.pcap_options.specs.EnhancedOption.{enhanced_entry};
ghost use Rattle.pcap_options.specs.PacketOption.{packet_entry};
ghost use Rattle.pcapfile_merge.specs.Renewing as renewing;
ghost use Rattle.pcapfile_merge.specs.Renewing.{HasOldOptions, drop_options, kept_options, lost_options, options_left_out, stays};

use pcap_file::ResultParsing;
use pcap_file::pcapng::{
    EnhancedPacketBlock, EnhancedPacketOption, PacketBlock, PacketOption, ParsedBlock,
};
use std::alloc::Global;

/// The drop count of an obsolete packet for which the number of lost packets is unknown.
const UNKNOWN: u16 = 65535;

// Returns a body with an enhanced packet for an obsolete one, and how many options of the obsolete packet are left out.
pub(crate) fn renewed<'a>(
    alloc: Global,
    parsed: ParsedBlock<'a>,
) -> ResultParsing<(ParsedBlock<'a>, u64)>
    ensures body { IfOk result (λ made. body_of made.0 ≡ renewing.renewed (body_of parsed.entry)) }
    ensures count { IfOk result (λ made. made.1 ≡ options_left_out (body_of parsed.entry)) }
    ensures memory { IfErr result (λ e. IsMemory e × HasOldOptions (body_of parsed.entry)) }
{
    match parsed {
        ParsedBlock::Packet(old) => {
            let (packet, left_out) = enhanced_from(alloc, old)?;
            Ok((ParsedBlock::EnhancedPacket(packet), left_out))
        }
        other => Ok((other, 0)),
    }
}

// Returns the enhanced packet that an obsolete packet becomes, and how many of its options are left out.
fn enhanced_from<'a>(
    alloc: Global,
    old: PacketBlock<'a>,
) -> ResultParsing<(EnhancedPacketBlock<'a>, u64)>
    ensures packet { IfOk result (λ made. enhanced_of made.0 ≡ renewing.enhanced_from (packet_of old.entry)) }
    ensures count { IfOk result (λ made. made.1 ≡ lost_options (packet_of old.entry).packet.options) }
    ensures memory { IfErr result (λ e. IsMemory e × HasOldOptions (OldPacketBody (packet_of old.entry))) }
{
    let PacketBlock {
        interface_id,
        drop_count,
        timestamp,
        captured_len,
        original_len,
        data_,
        options,
    } = old;
    let all = options.len();
    let mut kept = Vec::new(alloc);
    put_options(options, &mut kept)?;
    let left_out = all.saturating_sub(kept.len()) as u64;
    put_drops(drop_count, &mut kept)?;
    let packet = EnhancedPacketBlock {
        interface_id: u32::from(interface_id),
        timestamp,
        captured_len,
        original_len,
        data_,
        options: kept,
    };
    Ok((packet, left_out))
}

// Appends those of an obsolete packet's options that mean the same in an enhanced packet.
fn put_options<'a>(
    options: Vec<PacketOption<'a>>,
    kept: &mut Vec<EnhancedPacketOption<'a>>,
) -> ResultParsing<()>
    ensures { MatchResult result (λ done. map enhanced_entry kept.new.items ≡ map enhanced_entry kept.old.items ++ kept_options (map packet_entry options.entry.items))
        (λ e. IsMemory e × (0 < length options.entry.items)) }
{
    for option in options {
        put_option(option, kept)?;
    }
    Ok(())
}

// Appends an option of an obsolete packet, if it means the same in an enhanced packet.
fn put_option<'a>(
    option: PacketOption<'a>,
    kept: &mut Vec<EnhancedPacketOption<'a>>,
) -> ResultParsing<()>
    ensures { MatchResult result (λ done. map enhanced_entry kept.new.items ≡ map enhanced_entry kept.old.items ++ kept_options (packet_entry option.entry ∷ [])) IsMemory }
{
    if let Some(same) = enhanced_option(option) {
        kept.push(same)?;
    }
    Ok(())
}

// Returns an option of an obsolete packet as an enhanced packet has it, or None if it means something else there.
fn enhanced_option<'a>(option: PacketOption<'a>) -> Option<EnhancedPacketOption<'a>>
    ensures { MatchOption result (stays (packet_entry option.entry) ≡ false) (λ same. (stays (packet_entry option.entry) ≡ true) × (enhanced_entry same ≡ packet_entry option.entry)) }
{
    match option {
        PacketOption::Comment(text) => Some(EnhancedPacketOption::Comment(text)),
        PacketOption::Flags(flags) => Some(EnhancedPacketOption::Flags(flags)),
        PacketOption::Hash(hash) => Some(EnhancedPacketOption::Hash(hash)),
        PacketOption::CustomBinary(custom) => Some(EnhancedPacketOption::CustomBinary(custom)),
        PacketOption::CustomUtf8(custom) => Some(EnhancedPacketOption::CustomUtf8(custom)),
        PacketOption::Unknown(unknown) => {
            if is_newer(unknown.code()) {
                return None;
            }
            Some(EnhancedPacketOption::Unknown(unknown))
        }
    }
}

// Returns whether only enhanced packets give this code a meaning.
fn is_newer(code: u16) -> bool
    ensures { result ≡ renewing.is_newer code }
{
    3 < code && code < 9
}

// Appends the option that says how many packets were lost, unless their number is unknown.
fn put_drops(drops: u16, kept: &mut Vec<EnhancedPacketOption<'_>>) -> ResultParsing<()>
    ensures { MatchResult result (λ done. map enhanced_entry kept.new.items ≡ map enhanced_entry kept.old.items ++ drop_options drops) (λ e. IsMemory e × (drops ≢ 65535)) }
{
    if drops == UNKNOWN {
        return Ok(());
    }
    kept.push(EnhancedPacketOption::DropCount(u64::from(drops)))?;
    Ok(())
}
