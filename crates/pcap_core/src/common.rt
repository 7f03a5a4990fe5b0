//! The byte order of numbers, and bytes that are borrowed or owned.

ghost use Rattle.std.specs.Prelude.{◌≡◌, ◌↔◌, IsTrue, [], ◌∷◌, length, IsOk, IfOk, IfErr, MatchOption};
ghost use Rattle.pcap_core.specs.Bytes.{cow_bytes, IsBorrowed, IsOwned};
ghost use Rattle.pcap_core.specs.Errors.{IsMemory};

use crate::ResultParsing;
use byteorder::ByteOrder;
use std::alloc::Global;

/// The byte order of numbers: the highest byte first, or the lowest.
#[derive(Clone, Copy, Debug, PartialEq, Eq)]
pub enum Endianness {
    Big,
    Little,
}

impl Endianness {
    /// Returns whether the lowest byte comes first.
    pub fn is_little(self) -> bool
        ensures { IsTrue result ↔ (self ≡ Endianness.Little) }
    {
        match self {
            Endianness::Big => false,
            Endianness::Little => true,
        }
    }

    /// Returns whether the highest byte comes first.
    pub fn is_big(self) -> bool
        ensures { IsTrue result ↔ (self ≡ Endianness.Big) }
    {
        match self {
            Endianness::Big => true,
            Endianness::Little => false,
        }
    }

    /// Returns the byte order in which `B` reads.
    pub fn new<B: ByteOrder>() -> Self
        ensures { (result ≡ Endianness.Big) ↔ (B.number_of 4 (0 ∷ 0 ∷ 0 ∷ 1 ∷ []) ≡ 1) }
    {
        if B::read_u32(&[0, 0, 0, 1]) == 1 {
            Endianness::Big
        } else {
            Endianness::Little
        }
    }
}

/// Bytes that are borrowed or owned.
#[derive(Clone, Debug, Drop)]
pub enum CowBytes<'a> {
    Borrowed(&'a [u8]),
    Owned(Vec<u8>),
}

impl<'a> CowBytes<'a> {
    /// Returns borrowed bytes, for as long as they are lent. Returns None if the bytes are owned.
    pub fn as_borrowed(&self) -> Option<&'a [u8]>
        ensures { MatchOption result (IsOwned self.now) (λ bytes. IsBorrowed self.now × (bytes.now ≡ cow_bytes self.now)) }
    {
        match self {
            CowBytes::Borrowed(bytes) => Some(bytes),
            CowBytes::Owned(_) => None,
        }
    }
}

impl CowBytes<'_> {
    /// Returns the bytes, whether they are borrowed or owned.
    pub fn as_slice(&self) -> &[u8]
        ensures { result.now ≡ cow_bytes self.now }
    {
        match self {
            CowBytes::Borrowed(bytes) => bytes,
            CowBytes::Owned(bytes) => bytes.as_slice(),
        }
    }

    /// Returns the number of bytes.
    pub fn len(&self) -> usize
        ensures { result ≡ length (cow_bytes self.now) }
    {
        self.as_slice().len()
    }

    /// Returns whether there are no bytes.
    pub fn is_empty(&self) -> bool
        ensures { IsTrue result ↔ (cow_bytes self.now ≡ []) }
    {
        self.as_slice().is_empty()
    }

    /// Returns whether the bytes are borrowed.
    pub fn is_borrowed(&self) -> bool
        ensures { IsTrue result ↔ IsBorrowed self.now }
    {
        matches!(self, CowBytes::Borrowed(_))
    }

    /// Returns the same bytes, owned. Returns `OutOfMemory` if borrowed bytes can't be copied. Owned bytes are never copied.
    pub fn into_owned(self, alloc: Global) -> ResultParsing<CowBytes<'static>>
        ensures bytes { IfOk result (λ own. cow_bytes own ≡ cow_bytes self.entry) }
        ensures owned { IfOk result IsOwned }
        ensures memory { IfErr result IsMemory }
        ensures kept { IsOwned self.entry → IsOk result }
    {
        match self {
            CowBytes::Borrowed(bytes) => Ok(CowBytes::Owned(Vec::from_slice(alloc, bytes)?)),
            CowBytes::Owned(bytes) => Ok(CowBytes::Owned(bytes)),
        }
    }
}
