//! The opening of a classic capture.

ghost use Rattle.std.specs.Prelude.{◌≡◌, ◌↔◌, [], false, IsTrue, IfOk};
ghost use Rattle.std.specs.Io.KnownBytes.{Consumes};
ghost use Rattle.pcap_classic.specs.HeaderText.{HeaderSays, HeaderText};
ghost use Rattle.pcap_classic.specs.Magic.{is_magic};
ghost use Rattle.pcap_items.specs.Reading.{ReadsTold};

use crate::changing::header_in;
use byteorder::{BigEndian, ByteOrder};
use pcap_classic::TsResolution;
use pcap_classic::pcap::PcapHeader;
use pcap_core::ResultParsing;
use pcap_items::stream::fill_array;
use std::io::Read;

/// The header of a classic capture, with its 24 bytes.
#[derive(Clone, Copy, Debug)]
pub struct Opening {
    pub(crate) header: PcapHeader,
    pub(crate) bytes: [u8; 24],
    pub ghost valid: { IsTrue (is_magic header.magic_number) },
}

impl Opening {
    ghost use Rattle.pcapfile_cut.specs.Openings.{bytes_in, bytes_of, header_of};

    /// Reads the header of a capture from a stream that hasn't failed, and sets `read_failed` if a read fails. On success it
    /// has read exactly 24 bytes.
    ///
    /// `InvalidField` if the magic number is none of the four. `IoError` if a read failed, or the stream ended early.
    pub fn read<R: Read>(input: &mut R, read_failed: &mut bool) -> ResultParsing<Opening>
        requires { read_failed.old ≡ false }
        ensures told { ReadsTold HeaderSays header_of (R.remaining input.old) (R.remaining input.new) read_failed.new result }
        ensures bytes { IfOk result (λ opening. HeaderText (header_of opening) (bytes_of opening) []
            × Consumes (R.remaining input.old) (R.remaining input.new) (bytes_of opening)) }
    {
        let mut bytes = [0; 24];
        fill_array(input, read_failed, &mut bytes)?;
        let (_, header) = PcapHeader::from_slice(&bytes)?;
        Ok(Opening { header, bytes })
    }

    /// Returns the header.
    pub fn header(&self) -> &PcapHeader
        ensures header { result.now ≡ header_of self.now }
        ensures valid { IsTrue (is_magic (header_of self.now).magic_number) }
    {
        &self.header
    }

    /// Returns the bytes of the header as they were read.
    pub fn bytes(&self) -> &[u8]
        ensures { result.now ≡ bytes_of self.now }
    {
        &self.bytes
    }

    // Returns the bytes of the header with the magic number of this resolution, if one is given.
    pub(crate) fn bytes_in(&self, ts_resolution: Option<TsResolution>) -> [u8; 24]
        ensures { result ≡ bytes_in ts_resolution self.now }
    {
        let mut bytes = self.bytes;
        if ts_resolution.is_some() {
            let header = header_in(ts_resolution, self.header());
            BigEndian::write_u32(&mut bytes, header.magic_number);
        }
        bytes
    }

    /// Returns whether both openings have the same bytes.
    pub fn is_same(&self, other: &Opening) -> bool
        ensures { IsTrue result ↔ (bytes_of self.now ≡ bytes_of other.now) }
    {
        self.bytes() == other.bytes()
    }
}
