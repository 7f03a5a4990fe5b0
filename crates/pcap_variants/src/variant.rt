//! The variants of classic captures.

ghost use Rattle.std.specs.Prelude.{◌≡◌, ◌≤◌};
ghost use Rattle.pcap_variants.specs.Variants.{further_len, plain_magic_in};

use pcap_core::Endianness;
use std::fmt;

/// How many further bytes the head of each packet has, behind its 16 usual bytes.
#[derive(Clone, Copy, Debug)]
pub enum Further {
    /// 4 bytes: captures of a vendor, Nokia.
    Four,
    /// 8 bytes: a modified libpcap.
    Eight,
    /// 12 bytes: another modified libpcap.
    Twelve,
}

/// A variant of classic captures.
#[derive(Clone, Copy, Debug)]
pub struct Variant {
    /// The byte order.
    pub order: Endianness,
    /// The further bytes of each head.
    pub further: Further,
}

impl Further {
    /// Returns the number of these bytes.
    pub fn len(self) -> usize
        ensures number { result ≡ further_len self }
        ensures most { result ≤ 12 }
    {
        match self {
            Further::Four => 4,
            Further::Eight => 8,
            Further::Twelve => 12,
        }
    }
}

impl fmt::Display for Further {
    fn fmt<W: fmt::Write>(&self, f: &mut fmt::Formatter<W>) -> fmt::Result {
        f.write_str(match self {
            Further::Four => "packet headers of 20 bytes, as in captures of Nokia",
            Further::Eight => "packet headers of 24 bytes, as a modified libpcap writes them",
            Further::Twelve => "packet headers of 28 bytes, as a modified libpcap writes them",
        })
    }
}

impl Variant {
    /// Returns the magic number of a plain capture in this byte order, as its first bytes.
    pub fn plain_magic(&self) -> [u8; 4]
        ensures { result ≡ plain_magic_in self.now.order }
    {
        match self.order {
            Endianness::Big => [0xA1, 0xB2, 0xC3, 0xD4],
            Endianness::Little => [0xD4, 0xC3, 0xB2, 0xA1],
        }
    }
}
