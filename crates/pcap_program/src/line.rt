//! Lines that are built from the end to the beginning in a fixed buffer, without allocation.

ghost use Rattle.std.specs.Prelude.{◌≡◌, ◌+◌, ◌<◌, ◌≤◌, ◌∷◌, ◌++◌, drop, length};
ghost use Rattle.std.specs.Fmt.{decimal};
ghost use Rattle.pcap_program.specs.Digits.{last_digits, nine_digits};

use itoa::write_digits;

/// The size of the buffer for a line, in bytes: room for six numbers of at most twenty digits, and a byte after each.
pub const ROOM: usize = 126;

// The two digits of each number below a hundred.
static TWO_DIGITS: [u8; 200] =
    *b"00010203040506070809101112131415161718192021222324252627282930313233343536373839404142434445464748495051525354555657585960616263646566676869707172737475767778798081828384858687888990919293949596979899";

// The number one in fixed point: a fraction has 57 bits.
const ONE: u64 = 144_115_188_075_855_872;

// The next fixed-point fraction above one hundred-millionth.
const HUNDRED_MILLIONTH: u64 = 1_441_151_881;

/// Puts a word before the text that begins at `end`, and returns the new beginning.
pub fn put_word(room: &mut [u8; ROOM], end: usize, word: &str) -> usize
    requires { (length word.now ≤ end) × (end ≤ 126) }
    ensures start { result + length word.now ≡ end }
    ensures text { drop result room.new ≡ word.now ++ drop end room.old }
{
    let start = end - word.len();
    room[start..end].copy_from_slice(word.as_bytes());
    start
}

/// Puts a byte before the text that begins at `end`, and returns the new beginning.
pub fn put_byte(room: &mut [u8; ROOM], end: usize, byte: u8) -> usize
    requires { (0 < end) × (end ≤ 126) }
    ensures start { result + 1 ≡ end }
    ensures text { drop result room.new ≡ byte ∷ drop end room.old }
{
    let start = end - 1;
    room[start] = byte;
    start
}

/// Puts the decimal digits of a number before the text that begins at `end`, and returns the new beginning.
pub fn put_number(room: &mut [u8; ROOM], end: usize, number: u64) -> usize
    requires { (20 ≤ end) × (end ≤ 126) }
    ensures start { (result ≤ end) × (end ≤ result + 20) }
    ensures text { drop result room.new ≡ decimal number ++ drop end room.old }
{
    write_digits(number, room, end)
}

// Puts the two digits of a number before the text that begins at `end`, and returns the new beginning.
fn put_two_digits(room: &mut [u8; ROOM], end: usize, number: u64) -> usize
    requires { (2 ≤ end) × (end ≤ 126) × (number < 100) }
    ensures start { result + 2 ≡ end }
    ensures text { drop result room.new ≡ last_digits 2 number ++ drop end room.old }
{
    let digits = number as usize * 2;
    let start = end - 2;
    room[start] = TWO_DIGITS[digits];
    room[start + 1] = TWO_DIGITS[digits + 1];
    start
}

/// Puts the digits of a number, padded with zeros to nine, before the text that begins at `end`, and returns the new beginning.
pub fn put_nine_digits(room: &mut [u8; ROOM], end: usize, number: u32) -> usize
    requires { (20 ≤ end) × (end ≤ 126) }
    ensures start { (result ≤ end) × (end ≤ result + 20) }
    ensures text { drop result room.new ≡ nine_digits number ++ drop end room.old }
{
    // In fixed point: a hundred times the fraction has the next two digits before the point.
    let first = u64::from(number) * HUNDRED_MILLIONTH;
    let second = first % ONE * 100;
    let third = second % ONE * 100;
    let fourth = third % ONE * 100;
    let fifth = fourth % ONE * 100;
    let start = put_two_digits(room, end, fifth / ONE);
    let start = put_two_digits(room, start, fourth / ONE);
    let start = put_two_digits(room, start, third / ONE);
    let start = put_two_digits(room, start, second / ONE);
    write_digits(first / ONE, room, start)
}
