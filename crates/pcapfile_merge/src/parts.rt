//! Beginnings and ends of slices of bytes.

ghost use Rattle.std.specs.Prelude.{◌≡◌, take, drop};

// Returns the first `n` bytes, or all if there are fewer.
#[inline(always)]
pub(crate) fn front(bytes: &[u8], n: usize) -> &[u8]
    ensures { result.now ≡ take n bytes.now }
{
    &bytes[..n.min(bytes.len())]
}

// Returns the bytes after the first `n`.
#[inline(always)]
pub(crate) fn behind(bytes: &[u8], n: usize) -> &[u8]
    ensures { result.now ≡ drop n bytes.now }
{
    &bytes[n.min(bytes.len())..]
}
