//! Options of enhanced packets in little-endian order.

ghost use Rattle.std.specs.Prelude.{◌≡◌, ◌≤◌, ◌++◌, length, map, reverse, take, drop, MatchResult, IfSome};
ghost use Rattle.std.specs.List.{Any};
ghost use Rattle.pcap_core.specs.declared.common.Endianness.TheVariants.{Big};
ghost use Rattle.pcap_core.specs.Errors.{IsMemory};
ghost use Rattle.pcap_blocks.specs.EnhancedPacket.{enhanced_of};
ghost use Rattle.pcap_options.specs.EnhancedOption.{enhanced_entry};
ghost use Rattle.pcapfile_merge.specs.Reordered as reordered;
ghost use Rattle.pcapfile_merge.specs.Reordered.{HasNumbers, NeedReordering, little_entry};
ghost use Rattle.pcapfile_merge.specs.TakingBlocks.{numbered};

use pcap_file::pcapng::{EnhancedPacketBlock, EnhancedPacketOption, UnknownOption};
use pcap_file::{Endianness, ResultParsing};
use std::alloc::Global;

/// The code of the number that identifies a packet: 8 bytes.
const PACKET_ID: u16 = 5;

/// The code of the number of the queue that received a packet: 4 bytes.
const QUEUE: u16 = 6;

/// The code of a verdict: a type, and for an eBPF program a number of 8 bytes.
const VERDICT: u16 = 7;

/// The code of the numbers of a process and its thread: 4 bytes each.
const PROCESS: u16 = 8;

// Returns an enhanced packet of a section of this order as a little-endian section has it, with this interface number.
pub(crate) fn renumbered<'a>(
    alloc: Global,
    order: Endianness,
    number: u32,
    packet: EnhancedPacketBlock<'a>,
) -> ResultParsing<EnhancedPacketBlock<'a>>
    ensures { MatchResult result (λ made. enhanced_of made ≡ numbered order number (enhanced_of packet.entry))
        (λ e. IsMemory e × NeedReordering order (enhanced_of packet.entry).packet.options) }
{
    let mut packet = packet;
    packet.interface_id = number;
    put_in_little(alloc, order, packet.options.as_mut_slice())?;
    Ok(packet)
}

// Puts the options of an enhanced packet of a section of this order into little-endian order.
fn put_in_little(
    alloc: Global,
    order: Endianness,
    options: &mut [EnhancedPacketOption<'_>],
) -> ResultParsing<()>
    ensures { MatchResult result (λ done. map enhanced_entry options.new ≡ map (little_entry order) (map enhanced_entry options.old))
        (λ e. IsMemory e × NeedReordering order (map enhanced_entry options.old)) }
{
    match order {
        Endianness::Big => reverse_numbers(alloc, options),
        Endianness::Little => Ok(()),
    }
}

// Reverses the bytes of each number in the options of an enhanced packet.
fn reverse_numbers(alloc: Global, options: &mut [EnhancedPacketOption<'_>]) -> ResultParsing<()>
    ensures { MatchResult result (λ done. map enhanced_entry options.new ≡ map (little_entry Big) (map enhanced_entry options.old))
        (λ e. IsMemory e × Any HasNumbers (map enhanced_entry options.old)) }
{
    for option in options.iter_mut() {
        reverse_in(alloc, option)?;
    }
    Ok(())
}

// Reverses the bytes of each number in an option.
fn reverse_in(alloc: Global, option: &mut EnhancedPacketOption<'_>) -> ResultParsing<()>
    ensures { MatchResult result (λ done. enhanced_entry option.new ≡ little_entry Big (enhanced_entry option.old))
        (λ e. IsMemory e × HasNumbers (enhanced_entry option.old)) }
{
    let EnhancedPacketOption::Unknown(unknown) = option else {
        return Ok(());
    };
    let Some(width) = first_width(unknown.code(), unknown.value()) else {
        return Ok(());
    };
    let mut value = Vec::from_slice(alloc, unknown.value())?;
    reverse_both(value.as_mut_slice(), width);
    *unknown = UnknownOption::from_vec(unknown.code(), unknown.length(), value);
    Ok(())
}

// Reverses the bytes of a first number of this width, and those of a second number.
fn reverse_both(value: &mut [u8], width: usize)
    requires { width ≤ length value.old }
    ensures { value.new ≡ reverse (take width value.old) ++ reverse (drop width value.old) }
{
    let (first, second) = value.split_at_mut(width);
    first.reverse();
    second.reverse();
}

// Returns the width of the first number in the value of an option with this code, if the value is one or two numbers.
fn first_width(code: u16, value: &[u8]) -> Option<usize>
    ensures width { result ≡ reordered.first_width code value.now }
    ensures within { IfSome result (λ width. width ≤ length value.now) }
{
    match code {
        PACKET_ID => if_long(8, value, 8),
        QUEUE => if_long(4, value, 4),
        VERDICT => verdict_width(value),
        PROCESS => if_long(8, value, 4),
        _ => None,
    }
}

// Returns the width of the type of a verdict, if a number follows it.
fn verdict_width(value: &[u8]) -> Option<usize>
    ensures width { result ≡ reordered.verdict_width value.now }
    ensures within { IfSome result (λ width. width ≤ length value.now) }
{
    match value.first() {
        Some(1 | 2) => if_long(9, value, 1),
        _ => None,
    }
}

// Returns this width, if the value is this long.
fn if_long(len: usize, value: &[u8], width: usize) -> Option<usize>
    requires { width ≤ len }
    ensures width { result ≡ reordered.if_long len value.now width }
    ensures within { IfSome result (λ width. width ≤ length value.now) }
{
    if value.len() == len {
        Some(width)
    } else {
        None
    }
}
