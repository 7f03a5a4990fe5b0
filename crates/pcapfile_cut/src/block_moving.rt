//! Blocks whose packets are written with another time.

ghost use Rattle.std.specs.Prelude.{◌≡◌, ◌^◌, ◌<◌, ◌*◌, [], length, IfOk, OnOk, MatchOption, SomeIff};
ghost use Rattle.pcap_core.specs.Answer.{number_in};
ghost use Rattle.pcap_core.specs.Codec.{number_bytes};
ghost use Rattle.pcap_times.specs.Times.{units_in_second};
ghost use Rattle.pcap_written.specs.Raw.{raw_of};
ghost use Rattle.pcapfile_cut.specs.MovedBlocks.{AreNanoseconds, AreNoUnits, HasNoUnits, IsInUnits, Moves, MovesIn, TimedText, body_at, timed_parts};

use crate::block_shortening::{LONGEST_BODY, put_u32};
use crate::moving::{SECOND, Shift};
use byteorder::{BigEndian, ByteOrder, LittleEndian};
use pcap_blocks::BlockType;
use pcap_core::Endianness;
use pcap_core::fields::split_u32;
use pcap_times::TimeUnit;
use pcap_written::{RawBlock, frame};
use std::alloc::{AllocError, Global};

/// The number of times whose upper half is the same: 2^32.
const HALF: u64 = 4_294_967_296;

/// The result of moving the time of a block's packet.
#[derive(Clone, Copy, Debug, PartialEq, Eq)]
pub enum Moved {
    /// The text is that of the block with the new time.
    Changed,
    /// The block keeps its time: the new one is no whole number of its interface's units, or does not fit 64 bits.
    Unstated,
    /// The body has no room for a time.
    Malformed,
    /// The block has no packet with a time.
    Untimed,
}

// The parts of a packet's body: what precedes its time, its time, and what follows it.
#[derive(Clone, Copy)]
pub(crate) struct Timed<'a> {
    pub(crate) front: &'a [u8],
    pub(crate) time: u64,
    pub(crate) rest: &'a [u8],
}

impl Shift {
    /// Returns the shift in units of an interface's clock, if this shift in nanoseconds is a whole number of units that fits 64 bits.
    pub fn in_units(self, unit: TimeUnit) -> Option<Shift>
        ensures { MatchOption result (HasNoUnits unit self) (λ shift. IsInUnits unit self shift) }
    {
        match self {
            Shift::Later(nanoseconds) => match units_in(unit, nanoseconds) {
                Some(units) => Some(Shift::Later(units)),
                None => None,
            },
            Shift::Earlier(nanoseconds) => match units_in(unit, nanoseconds) {
                Some(units) => Some(Shift::Earlier(units)),
                None => None,
            },
        }
    }
}

// Returns the number of units in a second. None if it is 2^128 or more.
fn units_in_second(unit: TimeUnit) -> Option<u128>
    ensures { SomeIff result (units_in_second unit < 2 ^ 128) (units_in_second unit) }
{
    match unit {
        TimeUnit::Decimal(exponent) => 10u128.checked_pow(u32::from(exponent)),
        TimeUnit::Binary(exponent) => 2u128.checked_pow(u32::from(exponent)),
    }
}

// Returns the number of units that are exactly these nanoseconds, if it fits 64 bits.
fn units_in(unit: TimeUnit, nanoseconds: u64) -> Option<u64>
    ensures { MatchOption result (AreNoUnits unit nanoseconds) (λ units. AreNanoseconds unit nanoseconds units) }
{
    if nanoseconds == 0 {
        return Some(0);
    }
    let Some(in_second) = units_in_second(unit) else {
        return None;
    };
    let Some(product) = in_second.checked_mul(u128::from(nanoseconds)) else {
        return None;
    };
    whole_seconds(product)
}

// Returns the seconds that are exactly these nanoseconds, if they fit 64 bits.
fn whole_seconds(nanoseconds: u128) -> Option<u64>
    ensures { MatchOption result ((n : _) → n < 2 ^ 64 → n * 1000000000 ≡ nanoseconds → ⊥) (λ n. n * 1000000000 ≡ nanoseconds) }
{
    let second = u128::from(SECOND);
    if nanoseconds % second != 0 || nanoseconds / second > u128::from(u64::MAX) {
        return None;
    }
    Some((nanoseconds / second) as u64)
}

// Returns the parts of a packet's body. None if the body is too short for a time.
fn split_time<B: ByteOrder>(body: &[u8]) -> Option<Timed<'_>>
    ensures { MatchOption result (length body.now < 12) (λ timed. TimedText B.number_of (timed_parts timed) body.now) }
{
    if body.len() < 12 {
        return None;
    }
    let (front, rest) = body.split_at(4);
    let (high, rest) = split_u32::<B>(rest);
    let (low, rest) = split_u32::<B>(rest);
    Some(Timed {
        front,
        time: (u64::from(high) << 32) + u64::from(low),
        rest,
    })
}

// Replaces `body` by a packet's body with this time.
fn put_body_at<B: ByteOrder>(
    timed: Timed<'_>,
    time: u64,
    body: &mut Vec<u8>,
) -> Result<(), AllocError>
    ensures { OnOk result (body.new.items ≡ body_at B.bytes_of (timed_parts timed.entry) time) }
{
    body.clear();
    body.extend_from_slice(timed.front)?;
    put_u32::<B>(body, (time / HALF) as u32)?;
    put_u32::<B>(body, (time % HALF) as u32)?;
    body.extend_from_slice(timed.rest)
}

// Moves the time of a packet's body, in this byte order.
fn move_in<B: ByteOrder>(
    block: RawBlock<'_>,
    units: Option<Shift>,
    body: &mut Vec<u8>,
    text: &mut Vec<u8>,
) -> Result<Moved, AllocError>
    ensures { IfOk result (MovesIn B.number_of B.bytes_of units (raw_of block.entry) text.new.items) }
{
    let Some(timed) = split_time::<B>(block.body) else {
        return Ok(Moved::Malformed);
    };
    let Some(shift) = units else {
        return Ok(Moved::Unstated);
    };
    let Some(time) = shift.moved(timed.time) else {
        return Ok(Moved::Unstated);
    };
    put_body_at::<B>(timed, time, body)?;
    if body.len() > LONGEST_BODY {
        return Err(AllocError);
    }
    let body = body.as_slice();
    frame(text, RawBlock { body, ..block })?;
    Ok(Moved::Changed)
}

// Moves the time of a packet's body.
fn move_timed(
    block: RawBlock<'_>,
    units: Option<Shift>,
    body: &mut Vec<u8>,
    text: &mut Vec<u8>,
) -> Result<Moved, AllocError>
    ensures { let order = block.entry.endianness in
        IfOk result (MovesIn (number_in order) (number_bytes order) units (raw_of block.entry) text.new.items) }
{
    match block.endianness {
        Endianness::Big => move_in::<BigEndian>(block, units, body, text),
        Endianness::Little => move_in::<LittleEndian>(block, units, body, text),
    }
}

/// The block that was moved last.
#[derive(Drop)]
pub struct Moving {
    pub(crate) body: Vec<u8>,
    pub(crate) text: Vec<u8>,
}

impl Moving {
    ghost use Rattle.pcapfile_cut.specs.MovedBlocks.{text_of};

    /// Makes an empty one.
    pub fn new(alloc: Global) -> Moving
        ensures { text_of result ≡ [] }
    {
        Moving {
            body: Vec::new(alloc),
            text: Vec::new(alloc),
        }
    }

    /// Returns the bytes of the block that was moved last.
    pub fn text(&self) -> &[u8]
        ensures { result.now ≡ text_of self.now }
    {
        self.text.as_slice()
    }

    /// Moves the time of a block's packet by a shift in units of its interface's clock, and returns the result. `None` is a shift that is
    /// no whole number of units. Enhanced and obsolete packets have a time.
    ///
    /// `AllocError` if there is no memory for the block with its new time.
    pub fn pass(&mut self, block: RawBlock<'_>, units: Option<Shift>) -> Result<Moved, AllocError>
        ensures { IfOk result (Moves units (raw_of block.entry) (text_of self.new)) }
    {
        match block.type_ {
            BlockType::EnhancedPacket | BlockType::Packet => {
                move_timed(block, units, &mut self.body, &mut self.text)
            }
            _ => Ok(Moved::Untimed),
        }
    }
}
