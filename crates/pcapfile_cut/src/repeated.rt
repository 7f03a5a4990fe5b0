//! The blocks of a PcapNg capture that each of its parts repeats.

ghost use Rattle.std.specs.Prelude.{◌≡◌, IfOk};
ghost use Rattle.pcapfile_cut.specs.Repeating.{Passes, opening_of};

use pcap_blocks::BlockType;
use std::alloc::{AllocError, Global};

/// The block type of decryption secrets.
const SECRETS: u32 = 10;

/// The bytes with which a part of a PcapNg capture begins: the section header in force, and the interfaces, names and decryption
/// secrets of its section so far. So a reader of the part knows all that the capture says of its packets before them.
#[derive(Drop)]
pub struct Repeated {
    pub(crate) opening: Vec<u8>,
}

impl Repeated {
    /// Returns what the first part begins with: the bytes of the capture's first section header.
    pub fn new(alloc: Global, header: &[u8]) -> Result<Repeated, AllocError>
        ensures { IfOk result (λ repeated. opening_of repeated ≡ header.now) }
    {
        Ok(Repeated {
            opening: Vec::from_slice(alloc, header)?,
        })
    }

    /// Returns the bytes with which a part begins here.
    pub fn opening(&self) -> &[u8]
        ensures { result.now ≡ opening_of self.now }
    {
        self.opening.as_slice()
    }

    /// Takes the next block of the capture into account, which has this type and these bytes. It changes nothing if there is no
    /// memory for the block.
    pub fn pass(&mut self, alloc: Global, type_: BlockType, text: &[u8]) -> Result<(), AllocError>
        ensures { Passes (record { type_ = type_; text = text.now }) self.old self.new result }
    {
        match type_ {
            BlockType::SectionHeader => {
                self.opening = Vec::from_slice(alloc, text)?;
                Ok(())
            }
            BlockType::InterfaceDescription
            | BlockType::NameResolution
            | BlockType::Unknown(SECRETS) => self.opening.extend_from_slice(text),
            _ => Ok(()),
        }
    }
}
