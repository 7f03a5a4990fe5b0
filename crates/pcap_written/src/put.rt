//! Numbers and bytes that are appended to a buffer.

ghost use Rattle.std.specs.Prelude.{◌≡◌, ◌++◌, OnOk};
ghost use Rattle.std.specs.Int.{w64, cast_unsigned};
ghost use Rattle.pcap_written.specs.Text.{padding, padded_bytes, time_bytes};

use byteorder::ByteOrder;
use std::alloc::AllocError;

pub(crate) fn put_u16<B: ByteOrder>(out: &mut Vec<u8>, n: u16) -> Result<(), AllocError>
    ensures { OnOk result (out.new.items ≡ out.old.items ++ B.bytes_of 2 n) }
{
    let mut bytes = [0; 2];
    B::write_u16(&mut bytes, n);
    out.extend_from_slice(&bytes)
}

pub(crate) fn put_u32<B: ByteOrder>(out: &mut Vec<u8>, n: u32) -> Result<(), AllocError>
    ensures { OnOk result (out.new.items ≡ out.old.items ++ B.bytes_of 4 n) }
{
    let mut bytes = [0; 4];
    B::write_u32(&mut bytes, n);
    out.extend_from_slice(&bytes)
}

pub(crate) fn put_u64<B: ByteOrder>(out: &mut Vec<u8>, n: u64) -> Result<(), AllocError>
    ensures { OnOk result (out.new.items ≡ out.old.items ++ B.bytes_of 8 n) }
{
    let mut bytes = [0; 8];
    B::write_u64(&mut bytes, n);
    out.extend_from_slice(&bytes)
}

pub(crate) fn put_i64<B: ByteOrder>(out: &mut Vec<u8>, n: i64) -> Result<(), AllocError>
    ensures { OnOk result (out.new.items ≡ out.old.items ++ B.bytes_of 8 (cast_unsigned w64 n)) }
{
    put_u64::<B>(out, n.cast_unsigned())
}

// Appends a timestamp, its high 4 bytes before its low 4.
pub(crate) fn put_time<B: ByteOrder>(out: &mut Vec<u8>, n: u64) -> Result<(), AllocError>
    ensures { OnOk result (out.new.items ≡ out.old.items ++ time_bytes B.bytes_of n) }
{
    put_u32::<B>(out, (n / 4_294_967_296) as u32)?;
    put_u32::<B>(out, (n % 4_294_967_296) as u32)
}

// Appends zero bytes after `len` others, up to the next multiple of 4.
pub(crate) fn put_padding(out: &mut Vec<u8>, len: usize) -> Result<(), AllocError>
    ensures { OnOk result (out.new.items ≡ out.old.items ++ padding len) }
{
    let missing = (4 - len % 4) % 4;
    let zeros = [0; 3];
    out.extend_from_slice(&zeros[..missing])
}

pub(crate) fn put_padded(out: &mut Vec<u8>, bytes: &[u8]) -> Result<(), AllocError>
    ensures { OnOk result (out.new.items ≡ out.old.items ++ padded_bytes bytes.now) }
{
    out.extend_from_slice(bytes)?;
    put_padding(out, bytes.len())
}
