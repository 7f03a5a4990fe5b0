//! Blocks that are no packets, no interfaces and no section headers, counted by kind.

ghost use Rattle.std.specs.Prelude.{◌≡◌, []};
ghost use Rattle.pcapfile_info.specs.Describing.{number_behind};
ghost use Rattle.pcapfile_info.specs.Others.{CountsOthers, is_custom, is_journal, is_names, is_secrets, is_statistics, is_unknown, kind_of};

/// The kind of a block that is no packet, no interface and no section header.
#[derive(Clone, Copy, Debug, PartialEq, Eq)]
pub enum Kind {
    /// Names of addresses.
    Names,
    /// Statistics of an interface.
    Statistics,
    /// An entry of the journal of systemd.
    Journal,
    /// Secrets that decrypt packets.
    Secrets,
    /// A custom block, with the number of an enterprise.
    Custom,
    /// A block of any other type.
    Unknown,
}

/// The number of blocks of each kind. A number above 2^64 - 1 is reported as 2^64 - 1.
#[derive(Clone, Copy, Debug, PartialEq, Eq)]
pub struct Others {
    /// Blocks with names of addresses.
    pub names: u64,
    /// Blocks with statistics of an interface.
    pub statistics: u64,
    /// Entries of the journal of systemd.
    pub journal: u64,
    /// Blocks with secrets that decrypt packets.
    pub secrets: u64,
    /// Custom blocks.
    pub custom: u64,
    /// Blocks of any other type.
    pub unknown: u64,
}

/// Returns the kind of a block whose type has this number and no name in the library.
pub(crate) fn kind_of(number: u32) -> Kind
    ensures { result ≡ kind_of number }
{
    match number {
        0x0000_000A => Kind::Secrets,
        0x0000_0BAD => Kind::Custom,
        0x4000_0BAD => Kind::Custom,
        _ => Kind::Unknown,
    }
}

impl Others {
    /// Returns the counts of no blocks.
    pub(crate) fn new() -> Others
        ensures { CountsOthers [] result }
    {
        Others {
            names: 0,
            statistics: 0,
            journal: 0,
            secrets: 0,
            custom: 0,
            unknown: 0,
        }
    }

    /// Counts one block of this kind.
    pub(crate) fn add(&mut self, kind: Kind)
        ensures names { self.new.names ≡ number_behind (is_names kind) self.old.names }
        ensures statistics { self.new.statistics ≡ number_behind (is_statistics kind) self.old.statistics }
        ensures journal { self.new.journal ≡ number_behind (is_journal kind) self.old.journal }
        ensures secrets { self.new.secrets ≡ number_behind (is_secrets kind) self.old.secrets }
        ensures custom { self.new.custom ≡ number_behind (is_custom kind) self.old.custom }
        ensures unknown { self.new.unknown ≡ number_behind (is_unknown kind) self.old.unknown }
    {
        match kind {
            Kind::Names => self.names = self.names.saturating_add(1),
            Kind::Statistics => self.statistics = self.statistics.saturating_add(1),
            Kind::Journal => self.journal = self.journal.saturating_add(1),
            Kind::Secrets => self.secrets = self.secrets.saturating_add(1),
            Kind::Custom => self.custom = self.custom.saturating_add(1),
            Kind::Unknown => self.unknown = self.unknown.saturating_add(1),
        }
    }
}
