//! Packets that are written without memory.

ghost use Rattle.std.specs.Prelude.{◌≡◌, ◌≤◌, ◌∷◌, ◌++◌, length, true, MatchResult};
ghost use Rattle.pcap_items.specs.Writing.{WritesAll};
ghost use Rattle.pcap_blocks.specs.ParsedBlock.{EnhancedBody};
ghost use Rattle.pcap_written.specs.Bodies.{text_of};
ghost use Rattle.pcap_written.specs.Plain.{plain_head, plain_packet};

use byteorder::ByteOrder;
use pcap_core::ResultParsing;
use pcap_items::stream::put;
use std::io::Write;

/// Writes a packet without options, and takes no memory: the bytes before its data, its data, and the bytes after it. The
/// data must have at most 4294967260 bytes.
///
/// `IoError` if a write failed; then a beginning of the block was written.
pub fn put_packet<W: Write, B: ByteOrder>(
    writer: &mut W,
    has_failed: &mut bool,
    interface_id: u32,
    timestamp: u64,
    bytes: &[u8],
    original_len: u32,
) -> ResultParsing<()>
    requires { length bytes.now ≤ 4294967260 }
    ensures out { WritesAll (W.contents writer.old) (W.contents writer.new)
        (text_of B.bytes_of (EnhancedBody (plain_packet interface_id timestamp original_len bytes.now))) result }
    ensures told { MatchResult result (λ _. has_failed.new ≡ has_failed.old) (λ _. has_failed.new ≡ true) }
{
    let captured_len = bytes.len() as u32;
    let missing = (4 - bytes.len() % 4) % 4;
    let len = captured_len + missing as u32 + 32;
    let high = (timestamp / 4_294_967_296) as u32;
    let low = (timestamp % 4_294_967_296) as u32;
    let head = head_bytes::<B>(len, interface_id, high, low, captured_len, original_len);
    let tail = tail_bytes::<B>(len);
    put(writer, has_failed, &head)?;
    put(writer, has_failed, bytes)?;
    put(writer, has_failed, &tail[3 - missing..])
}

// Returns the 28 bytes before a packet's data, in a block of this length, with the timestamp in two halves.
fn head_bytes<B: ByteOrder>(
    len: u32,
    interface_id: u32,
    high: u32,
    low: u32,
    captured_len: u32,
    original_len: u32,
) -> [u8; 28]
    ensures { result ≡ plain_head B.bytes_of len interface_id high low captured_len original_len }
{
    let mut bytes = [0; 28];
    B::write_u32(&mut bytes, 6);
    B::write_u32(&mut bytes[4..], len);
    B::write_u32(&mut bytes[8..], interface_id);
    bytes[12..].copy_from_slice(&packet_head::<B>(high, low, captured_len, original_len));
    bytes
}

// Returns the timestamp of a packet, in two halves, and its two lengths.
fn packet_head<B: ByteOrder>(high: u32, low: u32, captured_len: u32, original_len: u32) -> [u8; 16]
    ensures { result ≡ B.bytes_of 4 high ++ (B.bytes_of 4 low ++ (B.bytes_of 4 captured_len ++ B.bytes_of 4 original_len)) }
{
    let mut bytes = [0; 16];
    B::write_u32(&mut bytes, high);
    B::write_u32(&mut bytes[4..], low);
    B::write_u32(&mut bytes[8..], captured_len);
    B::write_u32(&mut bytes[12..], original_len);
    bytes
}

// Returns three zero bytes, the most that a padding has, and the length of a block.
fn tail_bytes<B: ByteOrder>(len: u32) -> [u8; 7]
    ensures { result ≡ 0 ∷ 0 ∷ 0 ∷ B.bytes_of 4 len }
{
    let mut bytes = [0; 7];
    B::write_u32(&mut bytes[3..], len);
    bytes
}
