//! Views of newer values, which the parser returns as unknown blocks and unknown options.

ghost use Rattle.std.specs.Prelude.{◌≡◌, ◌∷◌, ℕ, List, MatchOption};
ghost use Rattle.std.specs.Option.{option_map};
ghost use Rattle.pcap_core.specs.Answer.{number_in};
ghost use Rattle.pcap_blocks.specs.EnhancedPacket.{enhanced_of};
ghost use Rattle.pcap_options.specs.Held.{first_under, unknown_in};
ghost use Rattle.pcap_blocks.specs.Views.{SecretsText, number_of_all, some_bytes_of};

use crate::block_type::BlockType;
use crate::enhanced_packet::EnhancedPacketBlock;
use crate::unknown_block::UnknownBlock;
use byteorder::{BigEndian, ByteOrder, LittleEndian};
use pcap_core::Endianness;
use pcap_core::fields::{split_padded, split_u32};
use pcap_options::first_unknown;

/// The secrets of a block of type 10 ('Decryption Secrets Block').
#[derive(Clone, Copy, Debug)]
pub struct DecryptionSecrets<'a> {
    /// The type of the secrets: 0x544c534b for a log of TLS keys, 0x57474b4c for a log of WireGuard keys, and others.
    pub secrets_type: u32,
    /// The bytes of the secrets.
    pub secrets: &'a [u8],
}

/// The verdict of hardware or a program on a packet ('Enhanced Packet Block', epb_verdict).
#[derive(Clone, Copy, Debug)]
pub struct PacketVerdict<'a> {
    /// The source of the verdict: 0 is the hardware, 1 an eBPF program of Linux's traffic control, 2 an eBPF program of
    /// Linux's XDP.
    pub kind: u8,
    /// The verdict, in the form that its source uses.
    pub value: &'a [u8],
}

impl UnknownBlock<'_> {
    /// Returns the secrets of a block of type 10, with its numbers read in this byte order. Returns None for a block of
    /// another type, and if the body ends before the secrets and their padding do.
    pub fn decryption_secrets(&self, order: Endianness) -> Option<DecryptionSecrets<'_>>
        ensures { MatchOption result ((type : ℕ) (secrets rest : List ℕ) → ¬ SecretsText (number_in order) self.now type secrets rest)
            (λ x. (rest : List ℕ) × SecretsText (number_in order) self.now x.secrets_type x.secrets.now rest) }
    {
        match order {
            Endianness::Big => self.secrets::<BigEndian>(),
            Endianness::Little => self.secrets::<LittleEndian>(),
        }
    }

    fn secrets<B: ByteOrder>(&self) -> Option<DecryptionSecrets<'_>>
        ensures { MatchOption result ((type : ℕ) (secrets rest : List ℕ) → ¬ SecretsText B.number_of self.now type secrets rest)
            (λ x. (rest : List ℕ) × SecretsText B.number_of self.now x.secrets_type x.secrets.now rest) }
    {
        let value = self.value.as_slice();
        if self.type_ != BlockType::Unknown(10) || value.len() < 8 {
            return None;
        }
        let (secrets_type, rest) = split_u32::<B>(value);
        let (len, rest) = split_u32::<B>(rest);
        let Some((secrets, _options)) = split_padded(rest, len as usize) else {
            return None;
        };
        Some(DecryptionSecrets {
            secrets_type,
            secrets,
        })
    }
}

impl EnhancedPacketBlock<'_> {
    /// Returns the number that identifies the packet wherever it was captured (epb_packetid, code 5). The call reads
    /// the first such option in this byte order. Returns None if there is no such option, or if its value isn't 8
    /// bytes.
    pub fn packet_id(&self, order: Endianness) -> Option<u64>
        ensures { result ≡ number_of_all (number_in order) 8 (first_under 5 unknown_in (enhanced_of self.now).packet.options) }
    {
        let value = first_unknown(&self.options, 5)?;
        if value.len() != 8 {
            return None;
        }
        Some(match order {
            Endianness::Big => BigEndian::read_u64(value),
            Endianness::Little => LittleEndian::read_u64(value),
        })
    }

    /// Returns the interface's queue that received the packet (epb_queue, code 6). The call reads the first such option
    /// in this byte order. Returns None if there is no such option, or if its value isn't 4 bytes.
    pub fn queue(&self, order: Endianness) -> Option<u32>
        ensures { result ≡ number_of_all (number_in order) 4 (first_under 6 unknown_in (enhanced_of self.now).packet.options) }
    {
        let value = first_unknown(&self.options, 6)?;
        if value.len() != 4 {
            return None;
        }
        Some(match order {
            Endianness::Big => BigEndian::read_u32(value),
            Endianness::Little => LittleEndian::read_u32(value),
        })
    }

    /// Returns the verdict on the packet from the first such option (epb_verdict, code 7). Returns None if there is no
    /// such option, or if its value is empty.
    pub fn verdict(&self) -> Option<PacketVerdict<'_>>
        ensures { option_map (λ x. x.kind ∷ x.value.now) result ≡ some_bytes_of (first_under 7 unknown_in (enhanced_of self.now).packet.options) }
    {
        let (kind, value) = first_unknown(&self.options, 7)?.split_first()?;
        Some(PacketVerdict { kind: *kind, value })
    }
}
