//! Rows of a packet's bytes: an offset, hexadecimal digits and characters.

ghost use Rattle.std.specs.Prelude.{◌≡◌, ◌+◌, ◌*◌, ◌<◌, ◌≤◌, ◌++◌, flat_map, length, map, replicate, slice_index};
ghost use Rattle.hex.specs.Hex.{lower_digits};
ghost use Rattle.arrayvec.specs.ArrayVec.{array_vec_len};
ghost use Rattle.pcapfile_lines.specs.Rows.{byte_text, character_of, nth_row, offset_digits, offset_text, row_count as row_number, row_text};

use arrayvec::ArrayVec;
use hex::encode_to_slice;

/// The most bytes of a row.
const BYTES: usize = 16;

/// The size of a row's text in bytes: room for sixteen digits of an offset, three characters for each of sixteen bytes, four blanks,
/// sixteen characters and a newline.
const ROOM: usize = 85;

/// The hexadecimal digits.
static DIGITS: [u8; 16] = *b"0123456789abcdef";

/// The text of a row.
pub type Row = ArrayVec<u8, ROOM>;

// Returns the hexadecimal digit of a number.
fn digit(number: u8) -> u8
    requires { number < 16 }
    ensures { result ≡ slice_index lower_digits number }
{
    DIGITS[usize::from(number)]
}

// Returns the character of a byte: the byte itself if it is a printable ASCII character or a blank, otherwise a dot.
fn character(byte: u8) -> u8
    ensures { result ≡ character_of byte }
{
    if byte >= 32 && byte < 127 {
        return byte;
    }
    b'.'
}

// Returns how many digits the offsets of a packet with this many bytes have.
fn digits_for(length: usize) -> usize
    ensures within { result ≤ 16 }
    ensures digits { result ≡ offset_digits length }
{
    if length <= 0x1_0000 {
        return 4;
    }
    if length <= 0x10_0000 {
        return 5;
    }
    if length <= 0x100_0000 {
        return 6;
    }
    if length <= 0x1000_0000 {
        return 7;
    }
    if length <= 0x1_0000_0000 {
        return 8;
    }
    16
}

// Appends the last `digits` digits of an offset.
fn push_offset(row: &mut Row, digits: usize, offset: usize)
    requires few { digits ≤ 16 }
    requires room { array_vec_len row.old + digits ≤ 85 }
    ensures offset { row.new.items ≡ row.old.items ++ offset_text digits offset }
    ensures long { array_vec_len row.new ≡ array_vec_len row.old + digits }
{
    let mut all = [0; 16];
    // Sixteen digits and the row have room, so neither call fails.
    let _ = encode_to_slice((offset as u64).to_be_bytes(), &mut all);
    let _ = row.try_extend_from_slice(&all[16 - digits..]);
}

// Appends blanks.
fn push_blanks(row: &mut Row, count: usize)
    requires { array_vec_len row.old + count ≤ 85 }
    ensures blanks { row.new.items ≡ row.old.items ++ replicate count 32 }
    ensures long { array_vec_len row.new ≡ array_vec_len row.old + count }
{
    for _blank in 0..count {
        row.push(b' ');
    }
}

// Appends the digits of bytes, each with a blank.
fn push_digits(row: &mut Row, bytes: &[u8])
    requires { array_vec_len row.old + 3 * length bytes.now ≤ 85 }
    ensures digits { row.new.items ≡ row.old.items ++ flat_map byte_text bytes.now }
    ensures long { array_vec_len row.new ≡ array_vec_len row.old + 3 * length bytes.now }
{
    for byte in bytes {
        row.push(digit(*byte / 16));
        row.push(digit(*byte % 16));
        row.push(b' ');
    }
}

// Appends the characters of bytes.
fn push_characters(row: &mut Row, bytes: &[u8])
    requires { array_vec_len row.old + length bytes.now ≤ 85 }
    ensures characters { row.new.items ≡ row.old.items ++ map character_of bytes.now }
    ensures long { array_vec_len row.new ≡ array_vec_len row.old + length bytes.now }
{
    for byte in bytes {
        row.push(character(*byte));
    }
}

// Returns the row of these bytes at this offset.
fn row_of(digits: usize, offset: usize, bytes: &[u8]) -> Row
    requires { (digits ≤ 16) × (length bytes.now ≤ 16) }
    ensures { result.items ≡ row_text digits offset bytes.now }
{
    let mut row = ArrayVec::new();
    push_offset(&mut row, digits, offset);
    push_blanks(&mut row, 2);
    push_digits(&mut row, bytes);
    push_blanks(&mut row, 3 * (BYTES - bytes.len()) + 2);
    push_characters(&mut row, bytes);
    row.push(b'\n');
    row
}

/// Returns the number of rows of a packet with this many bytes.
pub fn row_count(length: usize) -> usize
    ensures { result ≡ row_number length }
{
    length / BYTES + (length % BYTES).min(1)
}

/// Returns the row of a packet's bytes with this number; the first has the number 0.
pub fn row_at(bytes: &[u8], number: usize) -> Row
    requires { number < row_number (length bytes.now) }
    ensures { result.items ≡ nth_row bytes.now number }
{
    let offset = number * BYTES;
    let rest = &bytes[offset..];
    row_of(
        digits_for(bytes.len()),
        offset,
        &rest[..rest.len().min(BYTES)],
    )
}
