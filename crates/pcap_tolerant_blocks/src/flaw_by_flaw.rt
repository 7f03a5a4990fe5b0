//! The flaws of options, one after another, without a list of the options.

ghost use Rattle.std.specs.Prelude.{◌<◌, List, length, IfSome};
ghost use Rattle.pcap_core.specs.Answer.{number_in};
ghost use Rattle.pcap_tolerant_blocks.specs.Flaws.{Said};
ghost use Rattle.pcap_tolerant_blocks.specs.NextFlaw.{HasFlaws, FlawsBegin};
ghost use Rattle.pcap_tolerant_blocks.specs.SoundOptions.{kind_of};

use crate::flaws::Flaw;
use crate::list::{Unread, option_as_is};
use crate::sound::OptionsOf;
use byteorder::{BigEndian, ByteOrder, LittleEndian};
use pcap_blocks::{
    EnhancedPacketOption, InterfaceDescriptionOption, InterfaceStatisticsOption, PacketOption,
    SectionHeaderOption,
};
use pcap_core::Endianness;

/// Returns the first flaw of the options at the front of a slice, and the options that have the other flaws. Returns None if
/// there is no flaw. It needs no memory.
///
/// The options end at their mark, at the end of the slice, or where no next option can be found. The last is the last flaw of
/// the options.
pub fn next_flaw(of: OptionsOf, order: Endianness, options: &[u8]) -> Option<(Flaw, &[u8])>
    ensures flaws { (flaws : List Said) → HasFlaws (number_in order) (kind_of of) flaws options.now →
        FlawsBegin (number_in order) (kind_of of) flaws result }
    ensures shorter { IfSome result (λ x. length x.1.now < length options.now) }
{
    match of {
        OptionsOf::Section => next_in::<SectionHeaderOption>(order, options),
        OptionsOf::Interface => next_in::<InterfaceDescriptionOption>(order, options),
        OptionsOf::EnhancedPacket => next_in::<EnhancedPacketOption>(order, options),
        OptionsOf::Packet => next_in::<PacketOption>(order, options),
        OptionsOf::InterfaceStatistics => next_in::<InterfaceStatisticsOption>(order, options),
    }
}

// Does the same for the options of one kind of block.
fn next_in<'a, O: Unread<'a> + Drop>(
    order: Endianness,
    options: &'a [u8],
) -> Option<(Flaw, &'a [u8])>
    ensures flaws { (flaws : List Said) → HasFlaws (number_in order) O.kind flaws options.now →
        FlawsBegin (number_in order) O.kind flaws result }
    ensures shorter { IfSome result (λ x. length x.1.now < length options.now) }
{
    match order {
        Endianness::Big => find_flaw::<O, BigEndian>(options),
        Endianness::Little => find_flaw::<O, LittleEndian>(options),
    }
}

// Does the same for the options of one kind of block in one byte order.
fn find_flaw<'a, O: Unread<'a> + Drop, B: ByteOrder>(options: &'a [u8]) -> Option<(Flaw, &'a [u8])>
    ensures flaws { (flaws : List Said) → HasFlaws B.number_of O.kind flaws options.now → FlawsBegin B.number_of O.kind flaws result }
    ensures shorter { IfSome result (λ x. length x.1.now < length options.now) }
{
    let mut left = options;
    while !left.is_empty() {
        let (after, option) = match option_as_is::<O, B>(left) {
            Ok(read) => read,
            Err(rule) => return Some((Flaw::of_body(rule), &[])),
        };
        let Some(read) = option else {
            return None;
        };
        if let Some(flaw) = read.flaw {
            return Some((flaw, after));
        }
        left = after;
    }
    None
}
