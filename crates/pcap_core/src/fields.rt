//! Functions that split numbers and padded bytes off the front of a slice.

ghost use Rattle.std.specs.Prelude.{◌≡◌, ◌≤◌, ◌<◌, ◌+◌, ◌^◌, length, MatchOption};
ghost use Rattle.pcap_core.specs.Answer.{Number};
ghost use Rattle.pcap_core.specs.Padded.{Padded, up_to_4};

use byteorder::ByteOrder;

/// Returns the number in the first two bytes, and the bytes after them.
pub fn split_u16<B: ByteOrder>(bytes: &[u8]) -> (u16, &[u8])
    requires { 2 ≤ length bytes.now }
    ensures number { Number B.number_of 2 result.0 bytes.now result.1.now }
    ensures rest { length result.1.now + 2 ≡ length bytes.now }
{
    let (front, rest) = bytes.split_at(2);
    (B::read_u16(front), rest)
}

/// Returns the number in the first four bytes, and the bytes after them.
pub fn split_u32<B: ByteOrder>(bytes: &[u8]) -> (u32, &[u8])
    requires { 4 ≤ length bytes.now }
    ensures number { Number B.number_of 4 result.0 bytes.now result.1.now }
    ensures rest { length result.1.now + 4 ≡ length bytes.now }
{
    let (front, rest) = bytes.split_at(4);
    (B::read_u32(front), rest)
}

/// Returns the number in the first eight bytes, and the bytes after them.
pub fn split_u64<B: ByteOrder>(bytes: &[u8]) -> (u64, &[u8])
    requires { 8 ≤ length bytes.now }
    ensures number { Number B.number_of 8 result.0 bytes.now result.1.now }
    ensures rest { length result.1.now + 8 ≡ length bytes.now }
{
    let (front, rest) = bytes.split_at(8);
    (B::read_u64(front), rest)
}

/// Returns the first `len` bytes, and the bytes after their padding. Returns None if the padding extends past the end.
#[tactic(auto, using(crate::proofs::Padded::split_padded))]
pub fn split_padded(bytes: &[u8], len: usize) -> Option<(&[u8], &[u8])>
    requires { len < 2 ^ 32 }
    ensures len { MatchOption result (length bytes.now < up_to_4 len) (λ x. length x.0.now ≡ len) }
    ensures padded { MatchOption result (length bytes.now < up_to_4 len) (λ x. Padded x.0.now bytes.now x.1.now) }
{
    let padded = len + (4 - len % 4) % 4;
    if bytes.len() < padded {
        return None;
    }
    let (text, rest) = bytes.split_at(padded);
    let (value, _padding) = text.split_at(len);
    Some((value, rest))
}
