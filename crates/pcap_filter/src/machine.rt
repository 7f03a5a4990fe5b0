//! The machine, and the effect of each instruction on it.

ghost use Rattle.std.specs.Prelude.{◌≡◌, ◌/◌, ◌%◌, ◌<◌, ◌==◌, if◌then◌else◌, Some, None, slice_set};
ghost use Rattle.pcap_filter.specs.Codes.{kind_of};
ghost use Rattle.pcap_filter.specs.Effects.{shifted_left as left, shifted_right as right, effect, read as number_at};
ghost use Rattle.pcap_filter.specs.Machines.{effect_of, length_of, machine_of};
ghost use Rattle.pcap_filter.specs.Programs.{HasNumber};

use crate::operation::Operation;
use crate::program::{CELLS, Step};
use byteorder::{BigEndian, ByteOrder};

/// The registers of the machine.
#[derive(Clone, Copy)]
pub(crate) struct Registers {
    pub(crate) accumulator: u32,
    pub(crate) index: u32,
}

/// The continuation of a program after a step.
#[derive(Clone, Copy)]
pub(crate) enum Move {
    /// The program goes on behind this number of steps, which it skips.
    On(usize),
    /// The program ends with this result.
    End(u32),
}

/// The length of a number in the packet.
#[derive(Clone, Copy)]
pub(crate) enum Width {
    Word,
    Half,
    Byte,
}

// Returns the big-endian number of this width at a place of the packet, if all its bytes are in the packet.
#[inline(always)]
fn read(packet: &[u8], width: Width, place: usize) -> Option<u32>
    ensures { result ≡ number_at (length_of width) packet.now place }
{
    let bytes = packet.get(place..)?;
    match width {
        Width::Word if bytes.len() >= 4 => Some(BigEndian::read_u32(bytes)),
        Width::Half if bytes.len() >= 2 => Some(u32::from(BigEndian::read_u16(bytes))),
        Width::Byte if !bytes.is_empty() => Some(u32::from(bytes[0])),
        _ => None,
    }
}

#[inline(always)]
fn shifted_left(number: u32, by: u32) -> u32
    ensures { result ≡ left number by }
{
    if by < 32 { number << by } else { 0 }
}

#[inline(always)]
fn shifted_right(number: u32, by: u32) -> u32
    ensures { result ≡ right number by }
{
    if by < 32 { number >> by } else { 0 }
}

#[inline(always)]
fn quotient(number: u32, by: u32) -> Option<u32>
    ensures { result ≡ (if by == 0 then None else Some (number / by)) }
{
    if by == 0 { None } else { Some(number / by) }
}

#[inline(always)]
fn remainder(number: u32, by: u32) -> Option<u32>
    ensures { result ≡ (if by == 0 then None else Some (number % by)) }
{
    if by == 0 { None } else { Some(number % by) }
}

#[inline(always)]
fn store(cells: &mut [u32; CELLS], cell: u32, value: u32) -> Move
    requires { cell < 16 }
    ensures stored { cells.new ≡ slice_set cells.old cell value }
    ensures next { result ≡ Move.On 0 }
{
    cells[cell as usize] = value;
    Move::On(0)
}

// Returns the move of a test.
#[inline(always)]
fn branch(step: &Step, holds: bool) -> Move
    ensures { result ≡ Move.On (if holds then step.now.jt else step.now.jf) }
{
    Move::On(usize::from(if holds { step.jt } else { step.jf }))
}

impl Registers {
    ghost use Rattle.pcap_filter.specs.Machines.{IndexesHeader, Loads};

    #[inline(always)]
    fn set(&mut self, value: u32) -> Move
        ensures changed { self.new ≡ record self.old { accumulator = value } }
        ensures next { result ≡ Move.On 0 }
    {
        self.accumulator = value;
        Move::On(0)
    }

    #[inline(always)]
    fn set_index(&mut self, value: u32) -> Move
        ensures changed { self.new ≡ record self.old { index = value } }
        ensures next { result ≡ Move.On 0 }
    {
        self.index = value;
        Move::On(0)
    }

    // Sets the accumulator, or rejects the packet if there is no value.
    #[inline(always)]
    fn load(&mut self, value: Option<u32>) -> Move
        ensures { Loads value self.old self.new result }
    {
        match value {
            Some(value) => self.set(value),
            None => Move::End(0),
        }
    }

    // Sets the index register to four times the low half of a byte, or rejects the packet if there is no byte.
    #[inline(always)]
    fn load_header_length(&mut self, value: Option<u32>) -> Move
        ensures { IndexesHeader value self.old self.new result }
    {
        match value {
            Some(value) => self.set_index(4 * (value & 15)),
            None => Move::End(0),
        }
    }
}

// Takes a step for a packet of these bytes and this original length.
#[inline(always)]
pub(crate) fn act(
    step: &Step,
    packet: &[u8],
    length: u32,
    registers: &mut Registers,
    cells: &mut [u32; CELLS],
) -> Move
    requires { HasNumber (kind_of step.now.operation) step.now.k }
    ensures { effect step.now packet.now length (machine_of registers.old cells.old) ≡ effect_of result registers.new cells.new }
{
    let Registers { accumulator, index } = *registers;
    let k = step.k;
    let constant = k as usize;
    match step.operation {
        Operation::LoadWord => registers.load(read(packet, Width::Word, constant)),
        Operation::LoadHalf => registers.load(read(packet, Width::Half, constant)),
        Operation::LoadByte => registers.load(read(packet, Width::Byte, constant)),
        Operation::LoadWordBehind => registers.load(read(
            packet,
            Width::Word,
            index as usize + constant,
        )),
        Operation::LoadHalfBehind => registers.load(read(
            packet,
            Width::Half,
            index as usize + constant,
        )),
        Operation::LoadByteBehind => registers.load(read(
            packet,
            Width::Byte,
            index as usize + constant,
        )),
        Operation::LoadLength => registers.set(length),
        Operation::LoadConstant => registers.set(k),
        Operation::LoadCell => registers.set(cells[k as usize]),
        Operation::LoadIndexConstant => registers.set_index(k),
        Operation::LoadIndexLength => registers.set_index(length),
        Operation::LoadIndexCell => registers.set_index(cells[k as usize]),
        Operation::LoadIndexHeaderLength => registers.load_header_length(read(
            packet,
            Width::Byte,
            constant,
        )),
        Operation::StoreCell => store(cells, k, accumulator),
        Operation::StoreIndexCell => store(cells, k, index),
        Operation::AddConstant => registers.set(accumulator.wrapping_add(k)),
        Operation::AddIndex => registers.set(accumulator.wrapping_add(index)),
        Operation::SubtractConstant => registers.set(accumulator.wrapping_sub(k)),
        Operation::SubtractIndex => registers.set(accumulator.wrapping_sub(index)),
        Operation::MultiplyConstant => registers.set(accumulator.wrapping_mul(k)),
        Operation::MultiplyIndex => registers.set(accumulator.wrapping_mul(index)),
        Operation::DivideConstant => registers.set(accumulator / k),
        Operation::DivideIndex => registers.load(quotient(accumulator, index)),
        Operation::RemainderConstant => registers.set(accumulator % k),
        Operation::RemainderIndex => registers.load(remainder(accumulator, index)),
        Operation::AndConstant => registers.set(accumulator & k),
        Operation::AndIndex => registers.set(accumulator & index),
        Operation::OrConstant => registers.set(accumulator | k),
        Operation::OrIndex => registers.set(accumulator | index),
        Operation::XorConstant => registers.set(accumulator ^ k),
        Operation::XorIndex => registers.set(accumulator ^ index),
        Operation::ShiftLeftConstant => registers.set(shifted_left(accumulator, k)),
        Operation::ShiftLeftIndex => registers.set(shifted_left(accumulator, index)),
        Operation::ShiftRightConstant => registers.set(shifted_right(accumulator, k)),
        Operation::ShiftRightIndex => registers.set(shifted_right(accumulator, index)),
        Operation::Negate => registers.set(0u32.wrapping_sub(accumulator)),
        Operation::Jump => Move::On(constant),
        Operation::JumpEqualConstant => branch(step, accumulator == k),
        Operation::JumpEqualIndex => branch(step, accumulator == index),
        Operation::JumpAboveConstant => branch(step, k < accumulator),
        Operation::JumpAboveIndex => branch(step, index < accumulator),
        Operation::JumpFromConstant => branch(step, k <= accumulator),
        Operation::JumpFromIndex => branch(step, index <= accumulator),
        Operation::JumpAnyBitConstant => branch(step, accumulator & k != 0),
        Operation::JumpAnyBitIndex => branch(step, accumulator & index != 0),
        Operation::ReturnConstant => Move::End(k),
        Operation::ReturnAccumulator => Move::End(accumulator),
        Operation::CopyToIndex => registers.set_index(accumulator),
        Operation::CopyToAccumulator => registers.set(index),
    }
}
