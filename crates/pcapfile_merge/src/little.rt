//! Blocks of big-endian sections, in little-endian order.

ghost use Rattle.std.specs.Prelude.{◌≡◌, ◌≤◌, ◌++◌, ◌∷◌, [], length, reverse, take, drop, MatchResult};
ghost use Rattle.pcap_core.specs.Errors.{IsMemory};
ghost use Rattle.pcapfile_merge.specs.Little as little;
ghost use Rattle.pcapfile_merge.specs.Little.{raw_little, turned, turned_body, turned_all, turned_option, turned_secrets};

use crate::left_out::SECRETS;
use crate::parts::{behind, front};
use byteorder::{BigEndian, ByteOrder};
use pcap_blocks::BlockType;
use pcap_core::{Endianness, ResultParsing};
use pcap_written::{RawBlock, frame};

/// The type of custom blocks that may be copied into another capture.
const CUSTOM: u32 = 0xBAD;

/// The bytes of the code and of the length of an option.
const HEAD: usize = 4;

/// The bytes of the type and of the length of secrets.
const BEFORE: usize = 8;

/// The bytes of an enterprise number.
const ENTERPRISE: usize = 4;

// Returns whether a big-endian block of this type with this body can be kept.
pub(crate) fn can_turn(type_: BlockType, body: &[u8]) -> bool
    ensures { result ≡ little.can_turn type_ body.now }
{
    match type_ {
        BlockType::SystemdJournalExport => true,
        BlockType::Unknown(SECRETS) => are_secrets(body),
        BlockType::Unknown(CUSTOM) => body.len() >= ENTERPRISE,
        _ => false,
    }
}

// Replaces `text` by the text of a big-endian block that is kept, in little-endian order. The function uses `little` as a buffer.
#[tactic(auto, using(crate::proofs::LittleOptions::turned_length))]
pub(crate) fn put_turned(
    type_: BlockType,
    body: &[u8],
    little: &mut Vec<u8>,
    text: &mut Vec<u8>,
) -> ResultParsing<()>
    requires { length body.now ≤ 4294967248 }
    ensures { MatchResult result (λ done. text.new.items ≡ raw_little type_ (turned_body type_ body.now)) IsMemory }
{
    put_body(type_, body, little)?;
    put_text(type_, little.as_slice(), text)
}

// Replaces `text` by the text of a little-endian block.
pub(crate) fn put_text(type_: BlockType, body: &[u8], text: &mut Vec<u8>) -> ResultParsing<()>
    requires { length body.now ≤ 4294967248 }
    ensures { MatchResult result (λ done. text.new.items ≡ raw_little type_ body.now) IsMemory }
{
    let raw = RawBlock {
        type_,
        endianness: Endianness::Little,
        body,
    };
    frame(text, raw)?;
    Ok(())
}

// Replaces `made` by the body of a big-endian block of this type in little-endian order.
fn put_body(type_: BlockType, body: &[u8], made: &mut Vec<u8>) -> ResultParsing<()>
    ensures { MatchResult result (λ done. made.new.items ≡ turned_body type_ body.now) IsMemory }
{
    made.clear();
    match type_ {
        BlockType::Unknown(SECRETS) => put_secrets(body, made),
        BlockType::Unknown(_) => put_numbers(ENTERPRISE, 0, 0, body, made),
        _ => put_numbers(0, 0, 0, body, made),
    }
}

// Returns whether a body has whole secrets, and then options.
fn are_secrets(body: &[u8]) -> bool
    ensures { result ≡ little.are_secrets body.now }
{
    let size = secrets_size(body);
    size > 0 && are_options(behind(body, size))
}

// Appends the body of secrets in little-endian order.
fn put_secrets(body: &[u8], made: &mut Vec<u8>) -> ResultParsing<()>
    ensures { MatchResult result (λ done. made.new.items ≡ made.old.items ++ turned_secrets body.now) IsMemory }
{
    let size = secrets_size(body);
    put_numbers(ENTERPRISE, ENTERPRISE, 0, front(body, size), made)?;
    put_options(behind(body, size), made)
}

// Returns the size of the type, the length and the padded data of secrets, or 0 if the body has fewer bytes than that.
#[tactic(auto, unfolding(crate::specs::Little::secrets_size))]
fn secrets_size(body: &[u8]) -> usize
    ensures { result ≡ little.secrets_size body.now }
{
    if body.len() < BEFORE {
        return 0;
    }
    let len = BigEndian::read_u32(front(behind(body, 4), 4));
    size_within(BEFORE, len, body.len())
}

// Returns the size of so many bytes and a value of this length with its padding, or 0 if there are fewer bytes than that.
fn size_within(before: usize, len: u32, there: usize) -> usize
    requires { before ≤ 8 }
    ensures { result ≡ little.size_within before len there }
{
    let size = before + (len as usize + 3) / 4 * 4;
    if size <= there { size } else { 0 }
}

// Returns whether these bytes are a list of options, which may have other bytes after its mark.
fn are_options(options: &[u8]) -> bool
    ensures { result ≡ little.are_options options.now }
{
    is_end(after_options(options))
}

// Returns what is after the options at the beginning of a slice.
fn after_options(options: &[u8]) -> &[u8]
    ensures { result.now ≡ little.after_options (length options.now) options.now }
{
    let mut left = options;
    let mut size = option_size(left);
    while size != 0 {
        left = behind(left, size);
        size = option_size(left);
    }
    left
}

// Returns whether a list of options ends at this slice: it is empty, or begins with a mark.
#[tactic(auto, unfolding(crate::specs::Little::is_end))]
fn is_end(left: &[u8]) -> bool
    ensures { result ≡ little.is_end left.now }
{
    left.is_empty() || (left.len() >= HEAD && code_at(left) == 0)
}

// Appends options, and what is after them, in little-endian order.
fn put_options(options: &[u8], made: &mut Vec<u8>) -> ResultParsing<()>
    ensures { MatchResult result (λ done. made.new.items ≡ made.old.items ++ turned_all options.now) IsMemory }
{
    let mut left = options;
    let mut size = option_size(left);
    while size != 0 {
        put_option(front(left, size), made)?;
        left = behind(left, size);
        size = option_size(left);
    }
    put_numbers(2, 2, 0, left, made)
}

// Appends an option in little-endian order.
fn put_option(option: &[u8], made: &mut Vec<u8>) -> ResultParsing<()>
    requires { 2 ≤ length option.now }
    ensures { MatchResult result (λ done. made.new.items ≡ made.old.items ++ turned_option option.now) IsMemory }
{
    put_numbers(2, 2, number_width(code_at(option)), option, made)
}

// Returns the size of the option at the beginning of a slice, or 0 if the slice begins with the mark of the end or with no whole option.
#[tactic(auto, unfolding(crate::specs::Little::option_size))]
fn option_size(slice: &[u8]) -> usize
    ensures size { result ≡ little.option_size slice.now }
    ensures within { result ≤ length slice.now }
{
    if slice.len() < HEAD {
        return 0;
    }
    let code = code_at(slice);
    let len = code_at(behind(slice, 2));
    if code == 0 || (len as usize) < number_width(code) {
        return 0;
    }
    size_within(HEAD, u32::from(len), slice.len())
}

// Returns the number in the first 2 bytes of a slice.
fn code_at(slice: &[u8]) -> u16
    requires { 2 ≤ length slice.now }
    ensures { result ≡ little.code_at slice.now }
{
    BigEndian::read_u16(front(slice, 2))
}

// Returns how many bytes the enterprise number has at the beginning of the value of an option with this code.
fn number_width(code: u16) -> usize
    ensures { result ≡ little.number_width code }
{
    match code {
        2988 | 2989 | 19372 | 19373 => ENTERPRISE,
        _ => 0,
    }
}

// Appends a slice, with the bytes of three numbers of these widths at its beginning in the other order.
fn put_numbers(
    first: usize,
    second: usize,
    third: usize,
    slice: &[u8],
    made: &mut Vec<u8>,
) -> ResultParsing<()>
    ensures { MatchResult result (λ done. made.new.items ≡ made.old.items ++ turned (first ∷ second ∷ third ∷ []) slice.now) IsMemory }
{
    put_number(first, slice, made)?;
    let slice = behind(slice, first);
    put_number(second, slice, made)?;
    let slice = behind(slice, second);
    put_number(third, slice, made)?;
    made.extend_from_slice(behind(slice, third))?;
    Ok(())
}

// Appends a number of this width at the beginning of a slice, with its bytes in the other order.
fn put_number(width: usize, slice: &[u8], made: &mut Vec<u8>) -> ResultParsing<()>
    ensures { MatchResult result (λ done. made.new.items ≡ made.old.items ++ reverse (take width slice.now)) IsMemory }
{
    let start = made.len();
    made.extend_from_slice(front(slice, width))?;
    let (_before, number) = made.as_mut_slice().split_at_mut(start);
    number.reverse();
    Ok(())
}
