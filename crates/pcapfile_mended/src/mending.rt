//! Mending blocks.

ghost use Rattle.std.specs.Prelude.{◌≡◌, ◌≤◌, ◌<◌, ◌+◌, ◌-◌, ◌^◌, ◌++◌, true, false, length, replicate, IfOk, IfErr, OnOk};
ghost use Rattle.pcap_core.specs.Answer.{number_in};
ghost use Rattle.pcap_core.specs.declared.common.Endianness.{Endianness};
ghost use Rattle.pcap_blocks.specs.declared.block_type.BlockType.TheVariants as types;
ghost use Rattle.pcap_blocks.specs.ParsedBlock.{BodyMayGrow};
ghost use Rattle.pcap_tolerant_blocks.specs.declared.sound.OptionsOf.{OptionsOf};
ghost use Rattle.pcap_written.specs.Raw.{raw_of, raw_text};
ghost use Rattle.pcapfile_mended.specs.Mended.{IsMended, IsStated, IsTaken, MendGrows, OptionsAt, front_length, unstated, with_body};
ghost use Rattle.pcapfile_mended.specs.declared.mending.Mended.TheVariants as shown;

use crate::front::{Front, front_of};
use byteorder::{BigEndian, ByteOrder, LittleEndian};
use pcap_blocks::{BlockType, ParsedBlock};
use pcap_core::{Endianness, PcapError};
use pcap_tolerant_blocks::put_sound_options;
use pcap_written::{RawBlock, frame};
use std::alloc::{AllocError, Global};

/// The result of mending a block.
#[derive(Clone, Copy, Debug, PartialEq, Eq)]
pub enum Mended {
    /// The block is unchanged.
    Stays,
    /// The block has another body.
    Changed,
    /// The block is left out.
    LeftOut,
}

// The length of a section that doesn't state it, -1.
const NO_LENGTH: [u8; 8] = [255; 8];

// Returns whether strict reading takes the body of a block of this type, in one byte order.
fn is_taken<B: ByteOrder>(alloc: Global, type_: BlockType, body: &[u8]) -> Result<bool, AllocError>
    ensures taken { IfOk result (IsTaken B.number_of type_ body.now) }
    ensures memory { IfErr result (λ _. BodyMayGrow B.number_of type_ body.now) }
{
    match ParsedBlock::from_slice::<B>(alloc, type_, body) {
        Ok(_read) => Ok(true),
        Err(PcapError::OutOfMemory(error)) => Err(error),
        Err(_error) => Ok(false),
    }
}

// Returns whether strict reading takes a block's body.
fn is_sound(alloc: Global, block: RawBlock<'_>) -> Result<bool, AllocError>
    ensures taken { IfOk result (IsTaken (number_in block.entry.endianness) block.entry.type_ block.entry.body.now) }
    ensures memory { IfErr result (λ _. BodyMayGrow (number_in block.entry.endianness) block.entry.type_ block.entry.body.now) }
{
    match block.endianness {
        Endianness::Big => is_taken::<BigEndian>(alloc, block.type_, block.body),
        Endianness::Little => is_taken::<LittleEndian>(alloc, block.type_, block.body),
    }
}

// Appends the body of a section, without the length that it states.
fn put_section(bytes: &[u8], out: &mut Vec<u8>) -> Result<(), AllocError>
    requires { 16 ≤ length bytes.now }
    ensures { OnOk result (out.new.items ≡ out.old.items ++ unstated types.SectionHeader bytes.now) }
{
    out.extend_from_slice(&bytes[..8])?;
    out.extend_from_slice(&NO_LENGTH)?;
    out.extend_from_slice(&bytes[16..])?;
    Ok(())
}

// Appends the body of a block of this type, without the length that a section states.
fn put_unstated(type_: BlockType, bytes: &[u8], out: &mut Vec<u8>) -> Result<(), AllocError>
    requires { type_ ≡ types.SectionHeader → 16 ≤ length bytes.now }
    ensures { OnOk result (out.new.items ≡ out.old.items ++ unstated type_ bytes.now) }
{
    match type_ {
        BlockType::SectionHeader => put_section(bytes, out),
        _ => out.extend_from_slice(bytes),
    }
}

// Returns whether a block is a section that states its length.
fn states_length(block: RawBlock<'_>) -> bool
    requires { block.type_ ≡ types.SectionHeader → 16 ≤ length block.body.now }
    ensures { IsStated result block.entry.type_ block.entry.body.now }
{
    match block.type_ {
        BlockType::SectionHeader => &block.body[8..16] != NO_LENGTH.as_slice(),
        _ => false,
    }
}

// Writes the text of a block with another body.
fn put_changed(block: RawBlock<'_>, body: &[u8], text: &mut Vec<u8>) -> Result<Mended, AllocError>
    requires { length body.now + 12 < 2 ^ 32 }
    ensures { IfOk result (λ mended. (mended ≡ shown.Changed) × (text.new.items ≡ raw_text (with_body (raw_of block.entry) body.now))) }
{
    frame(text, RawBlock { body, ..block })?;
    Ok(Mended::Changed)
}

// Writes the text of a block whose body strict reading takes.
fn put_sound(
    block: RawBlock<'_>,
    body: &mut Vec<u8>,
    text: &mut Vec<u8>,
) -> Result<Mended, AllocError>
    requires short { length block.body.now + 12 < 2 ^ 32 }
    requires sound { IsTaken (number_in block.endianness) block.type_ block.body.now true }
    ensures { IfOk result (λ mended. IsMended (raw_of block.entry) mended text.new.items) }
{
    if !states_length(block) {
        frame(text, block)?;
        return Ok(Mended::Stays);
    }
    body.clear();
    put_unstated(block.type_, block.body, body)?;
    put_changed(block, body.as_slice(), text)
}

// Writes the text of a block with those of its options whose values break no rule.
fn put_with_options(
    block: RawBlock<'_>,
    front: Front,
    body: &mut Vec<u8>,
    text: &mut Vec<u8>,
) -> Result<Mended, AllocError>
    requires short { length block.body.now + 12 < 2 ^ 32 }
    requires refused { IsTaken (number_in block.endianness) block.type_ block.body.now false }
    requires options { OptionsAt (raw_of block) front.of front.order }
    requires len { front.len ≡ front_length front.of (number_in front.order) block.body.now }
    ensures { IfOk result (λ mended. IsMended (raw_of block.entry) mended text.new.items) }
{
    let (before, options) = block.body.split_at(front.len);
    body.clear();
    put_unstated(block.type_, before, body)?;
    put_sound_options(front.of, front.order, options, body)?;
    put_changed(block, body.as_slice(), text)
}

// Writes bytes, and zeros up to 8.
fn put_filled(bytes: &[u8], out: &mut Vec<u8>) -> Result<(), AllocError>
    requires { length bytes.now ≤ 8 }
    ensures { OnOk result (out.new.items ≡ bytes.now ++ replicate (8 - length bytes.now) 0) }
{
    out.clear();
    out.extend_from_slice(bytes)?;
    out.resize(8, 0)
}

// Writes the text of a block without room for options: an interface is filled with zeros, and any other block is left out.
fn put_rest(
    block: RawBlock<'_>,
    body: &mut Vec<u8>,
    text: &mut Vec<u8>,
) -> Result<Mended, AllocError>
    requires refused { IsTaken (number_in block.endianness) block.type_ block.body.now false }
    requires none { (of : OptionsOf) (order : Endianness) → OptionsAt (raw_of block) of order → ⊥ }
    ensures mended { IfOk result (λ mended. IsMended (raw_of block.entry) mended text.new.items) }
    ensures memory { IfErr result (λ _. block.entry.type_ ≡ types.InterfaceDescription) }
{
    match block.type_ {
        BlockType::InterfaceDescription => {
            put_filled(block.body, body)?;
            put_changed(block, body.as_slice(), text)
        }
        _ => {
            text.clear();
            Ok(Mended::LeftOut)
        }
    }
}

/// Mends a block, so that strict reading takes its body, and returns the result. The function replaces the bytes of `text` with
/// the mended block's, and uses `body` as scratch space.
///
/// If strict reading takes the body, the block is unchanged, except that a section no longer states its length. Any other body
/// loses the options whose values break a rule, and all bytes after the last option that can be found. An interface too short
/// for its fixed fields is filled with zeros. Any other body is left out if it is too short for what precedes its options, or
/// has no options.
///
/// `AllocError` if there is no memory for the text, the scratch space or a list of the body. Mending a block that is left out
/// needs memory only if reading its body may need a list.
pub fn mend(
    alloc: Global,
    block: RawBlock<'_>,
    body: &mut Vec<u8>,
    text: &mut Vec<u8>,
) -> Result<Mended, AllocError>
    requires { length block.body.now + 12 < 2 ^ 32 }
    ensures mended { IfOk result (λ mended. IsMended (raw_of block.entry) mended text.new.items) }
    ensures memory { IfErr result (λ _. MendGrows (raw_of block.entry)) }
{
    if is_sound(alloc, block)? {
        return put_sound(block, body, text);
    }
    match front_of(block) {
        Some(front) => put_with_options(block, front, body, text),
        None => put_rest(block, body, text),
    }
}
