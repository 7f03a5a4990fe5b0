//! Completing packet blocks whose end is cut off.

ghost use Rattle.std.specs.Prelude.{◌≡◌, ◌≤◌, ◌+◌, ◌++◌, ℕ, List, length, take, drop, replicate, MatchOption, IfOk, IfErr, OnOk};
ghost use Rattle.pcap_core.specs.Answer.{number_in};
ghost use Rattle.pcapfile_mended.specs.CutOff.{CutBlock, IsCompleted, IsCut, IsNotCut, KeepsOptions, LacksData, data_end as data_end_of, options_behind, padding_after};
ghost use Rattle.pcapfile_mended.specs.Mended.{options_of};

use crate::front::options_in;
use byteorder::{BigEndian, ByteOrder, LittleEndian};
use pcap_blocks::BlockType;
use pcap_core::Endianness;
use pcap_core::fields::split_u32;
use pcap_tolerant_blocks::put_sound_options;
use pcap_written::{RawBlock, frame};
use std::alloc::AllocError;

// The beginning of a packet block: its type, its body up to the end of the packet's data, what follows, and the room for options.
#[derive(Clone, Copy, Debug)]
struct Cut<'a> {
    type_: BlockType,
    front: &'a [u8],
    rest: &'a [u8],
    room: usize,
}

// Returns the number in the four bytes from this offset on.
fn number_from<B: ByteOrder>(bytes: &[u8], offset: usize) -> u32
    requires { offset + 4 ≤ length bytes.now }
    ensures { result ≡ B.number_of 4 (take 4 (drop offset bytes.now)) }
{
    B::read_u32(&bytes[offset..offset + 4])
}

// Returns the length of a packet block's body up to the end of the packet's data, if all of them are there.
fn data_end<B: ByteOrder>(most: u32, type_: BlockType, body: &[u8]) -> Option<usize>
    ensures { MatchOption result (LacksData B.number_of most type_ body.now)
        (λ n. (data_end_of B.number_of most type_ body.now ≡ Some n) × (n ≤ length body.now)) }
{
    let len = match type_ {
        BlockType::EnhancedPacket | BlockType::Packet => {
            if body.len() < 20 {
                return None;
            }
            20 + number_from::<B>(body, 12) as usize
        }
        BlockType::SimplePacket => {
            if body.len() < 4 {
                return None;
            }
            4 + number_from::<B>(body, 0).min(most) as usize
        }
        _ => return None,
    };
    if body.len() < len {
        return None;
    }
    Some(len)
}

// Returns the packet block that the bytes begin, if it is cut off behind the packet's data, in one byte order.
fn cut_in<'a, B: ByteOrder>(most: u32, torn: &'a [u8]) -> Option<Cut<'a>>
    ensures { MatchOption result (IsNotCut B.number_of most torn.now)
        (λ cut. CutBlock B.number_of most torn.now cut.type_ cut.front.now cut.rest.now cut.room) }
{
    if torn.len() < 8 {
        return None;
    }
    let (number, after_number) = split_u32::<B>(torn);
    let (length, after) = split_u32::<B>(after_number);
    let type_ = BlockType::from(number);
    let len = data_end::<B>(most, type_, after)?;
    let needed = 12 + (len + 3) / 4 * 4;
    let stated = length as usize;
    if stated < needed || stated <= torn.len() {
        return None;
    }
    let (front, rest) = after.split_at(len);
    Some(Cut {
        type_,
        front,
        rest,
        room: stated - needed,
    })
}

// Returns the same, in any byte order.
fn cut_of<'a>(order: Endianness, most: u32, torn: &'a [u8]) -> Option<Cut<'a>>
    ensures { MatchOption result (IsNotCut (number_in order) most torn.now)
        (λ cut. CutBlock (number_in order) most torn.now cut.type_ cut.front.now cut.rest.now cut.room) }
{
    match order {
        Endianness::Big => cut_in::<BigEndian>(most, torn),
        Endianness::Little => cut_in::<LittleEndian>(most, torn),
    }
}

// Replaces `out` by these bytes and zeros up to a multiple of 4.
fn put_padded(front: &[u8], out: &mut Vec<u8>) -> Result<(), AllocError>
    ensures { OnOk result (out.new.items ≡ front.now ++ replicate (padding_after (length front.now)) 0) }
{
    out.clear();
    out.extend_from_slice(front)?;
    out.resize((front.len() + 3) / 4 * 4, 0)
}

// Returns the bytes of options behind the padding after the data.
fn options_after<'a>(front: &[u8], rest: &'a [u8], room: usize) -> &'a [u8]
    ensures { result.now ≡ options_behind front.now rest.now room }
{
    let padding = (front.len() + 3) / 4 * 4 - front.len();
    let behind = &rest[padding.min(rest.len())..];
    &behind[..room.min(behind.len())]
}

// Appends the options of a block of this type whose bytes are all there and whose values break no rule.
fn put_kept(
    order: Endianness,
    type_: BlockType,
    options: &[u8],
    out: &mut Vec<u8>,
) -> Result<(), AllocError>
    ensures { OnOk result ((kept : List ℕ) × KeepsOptions order (options_of type_) options.now kept × (out.new.items ≡ out.old.items ++ kept)) }
{
    match options_in(type_) {
        Some(of) => put_sound_options(of, order, options, out),
        None => Ok(()),
    }
}

/// Completes a packet block whose end is cut off, although all data of its packet are there, and returns whether the bytes begin one.
/// The function then replaces `text` by the whole block, and uses `body` as scratch space.
///
/// The whole block has the same type, and the same body up to the end of the data. Padding of zeros follows, and then the options
/// whose bytes are all there and whose values break no rule. A simple packet has no more than `most` bytes of data, which is the
/// snapshot length of its interface.
///
/// `AllocError` if there is no memory for the text or the scratch space, which is needed only if there is such a block.
pub fn complete(
    order: Endianness,
    most: u32,
    torn: &[u8],
    body: &mut Vec<u8>,
    text: &mut Vec<u8>,
) -> Result<bool, AllocError>
    ensures completed { IfOk result (IsCompleted order most torn.now text.new.items) }
    ensures memory { IfErr result (λ _. IsCut (number_in order) most torn.now) }
{
    let Some(cut) = cut_of(order, most, torn) else {
        return Ok(false);
    };
    put_padded(cut.front, body)?;
    let options = options_after(cut.front, cut.rest, cut.room);
    put_kept(order, cut.type_, options, body)?;
    frame(
        text,
        RawBlock {
            type_: cut.type_,
            endianness: order,
            body: body.as_slice(),
        },
    )?;
    Ok(true)
}
