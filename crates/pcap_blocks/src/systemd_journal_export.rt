//! Entries of the systemd journal.

ghost use Rattle.std.specs.Prelude.{IsOk, IfOk, ◌≡◌, IfErr};
ghost use Rattle.pcap_core.specs.Answer.{Tells, whole};
ghost use Rattle.pcap_blocks.specs.SystemdJournalExport.{JournalSays, journal_of, JournalIsBorrowed, JournalIsOwned};
ghost use Rattle.pcap_core.specs.Errors.{IsMemory};

use byteorder::ByteOrder;
use pcap_core::{CowBytes, ResultParsing};
use pcap_options::{IntoStatic, kept_fields};
use std::alloc::{AllocError, Global};

/// The body of a systemd journal export ('systemd Journal Export Block').
#[derive(Clone, Debug, Drop)]
pub struct SystemdJournalExportBlock<'a> {
    /// An entry in the journal export format.
    pub journal_entry: CowBytes<'a>,
}

impl<'a> SystemdJournalExportBlock<'a> {
    /// Reads a journal entry from a whole slice, and returns the empty rest and the entry. Its bytes are borrowed from
    /// the slice.
    pub fn from_slice<B: ByteOrder>(slice: &'a [u8]) -> ResultParsing<(&'a [u8], Self)>
        ensures tells { Tells (JournalSays slice.now) journal_of result }
        ensures borrowed { IfOk result (λ x. JournalIsBorrowed x.1) }
    {
        Ok(SystemdJournalExportBlock::read(slice))
    }

    pub(crate) fn read(slice: &'a [u8]) -> (&'a [u8], Self)
        ensures tells { JournalSays slice.now (whole (journal_of result.1) result.0.now) }
        ensures borrowed { JournalIsBorrowed result.1 }
    {
        let block = SystemdJournalExportBlock {
            journal_entry: CowBytes::Borrowed(slice),
        };
        (&slice[slice.len()..], block)
    }

    /// Returns the same journal entry with its own bytes: it copies borrowed ones and keeps owned ones.
    ///
    /// Returns `OutOfMemory` if an allocation fails; the value is then dropped.
    pub fn into_owned(self, alloc: Global) -> ResultParsing<SystemdJournalExportBlock<'static>>
        ensures same { IfOk result (λ kept. journal_of kept ≡ journal_of self.entry) }
        ensures owned { IfOk result JournalIsOwned }
        ensures memory { IfErr result IsMemory }
        ensures kept { JournalIsOwned self.entry → IsOk result }
    {
        Ok(self.into_static(alloc)?)
    }
}

impl<'a> IntoStatic for SystemdJournalExportBlock<'a> {
    type Owned = SystemdJournalExportBlock<'static>;

    ghost is_same = { λ value kept. journal_of kept ≡ journal_of value };

    ghost is_owned = { JournalIsOwned };

    ghost needs_no_memory = { JournalIsOwned };

    fn into_static(self, alloc: Global) -> Result<SystemdJournalExportBlock<'static>, AllocError> {
        kept_fields!(self alloc SystemdJournalExportBlock {} held { journal_entry })
    }
}
