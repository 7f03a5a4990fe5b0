//! Interfaces that their section doesn't describe.

ghost use Rattle.std.specs.Prelude.{◌≡◌};
ghost use Rattle.pcapfile_rows.specs.Changes.{is_guessed_fate, is_guessed_source, is_left_out_fate};

use crate::in_force::InForce;
use crate::numbers::{
    DESCRIPTION, ENHANCED, INTERFACE, LENGTH, OBSOLETE, SECTION, SIMPLE, STATISTICS, number_at,
};
use pcap_file::{DataLink, Endianness, PcapError, TsResolution};
use pcap_written::Unput;
use pcapfile_mended::{Described, describe};
use std::alloc::Global;
use std::io;
use std::io::ErrorKind;

/// The most interfaces that are described at once. A higher number of an interface is taken for corrupt.
const MOST: usize = 16;

/// The length of the shortest block whose body has room for an interface, in bytes.
const WITH_INTERFACE: u32 = 16;

/// Where the description of an interface comes from.
#[derive(Clone, Copy)]
pub enum Source {
    /// From the other interfaces of its section.
    Others,
    /// From a header that the caller gave.
    Header,
    /// From a link type that the caller gave. The rest is a guess.
    Link,
    /// From a guess.
    Assumed,
}

/// A description for interfaces without one.
#[derive(Clone, Copy)]
pub(crate) struct Supposed {
    described: Described,
    source: Source,
}

/// What becomes of the packets of an interface that isn't described.
#[derive(Clone, Copy)]
pub enum Fate {
    /// They are kept after a description of this link type.
    Described(u32, Source),
    /// They are kept without a description, since no interface of their section is described.
    Kept,
    /// They are left out, since the other interfaces of their section differ.
    OthersDiffer,
    /// They are left out, since the number of their interface is too high.
    TooHigh,
    /// They are left out, since a later description may also be that of their interface.
    Disputed,
}

/// A report on the packets of an interface that isn't described.
#[derive(Clone, Copy)]
pub struct Undescribed {
    /// The number of the interface.
    pub interface: u32,
    /// What becomes of the packets.
    pub fate: Fate,
}

/// What the interfaces of a section have in common.
#[derive(Clone, Copy)]
enum Common {
    /// No interface is described yet.
    Nothing,
    /// All have this description. If their snapshot lengths differ, it has no limit.
    Alike(Supposed),
    /// They differ.
    Different,
}

/// What to do with the next block.
#[derive(Clone, Copy)]
pub(crate) enum Next {
    /// The block is taken.
    Take,
    /// The report comes first. Then the block is looked at again.
    Report(Undescribed),
    /// The block is left out.
    LeaveOut,
}

/// What is known of the interfaces of a section, by which its undescribed ones are described.
#[derive(Drop)]
pub(crate) struct Describing {
    alloc: Global,
    /// Whether interfaces are described. If not, each block is taken.
    is_on: bool,
    /// The description for sections that describe no interface, if there is one.
    supposed: Option<Supposed>,
    common: Common,
    /// The first interface of the section whose description was written, if one was.
    first_written: Option<u32>,
    /// Whether a later description differs from those that were written.
    is_disputed: bool,
    /// Whether the link type of the section's packets is a guess.
    is_guess: bool,
    /// The last report on the section.
    reported: Option<Undescribed>,
    /// The descriptions that were written last.
    text: Vec<u8>,
}

impl Supposed {
    /// Returns a description of this link type in microseconds, which is a guess.
    pub(crate) fn by_guess(link: u32, is_assumed: bool) -> Supposed {
        let source = if is_assumed {
            Source::Assumed
        } else {
            Source::Link
        };
        Supposed::new(link, TsResolution::MicroSecond, source)
    }

    /// Returns a description of the link type and resolution that the caller gave.
    pub(crate) fn by_header(link: u32, resolution: TsResolution) -> Supposed {
        Supposed::new(link, resolution, Source::Header)
    }

    fn new(link: u32, resolution: TsResolution, source: Source) -> Supposed {
        let described = Described {
            link: DataLink::from(link),
            snaplen: 0,
            resolution: match resolution {
                TsResolution::MicroSecond => 6,
                TsResolution::NanoSecond => 9,
            },
            offset: 0,
        };
        Supposed { described, source }
    }
}

impl Common {
    // Returns what these interfaces and another one have in common.
    fn with(self, described: Option<Described>) -> Common {
        let Some(described) = described else {
            return Common::Different;
        };
        match self {
            Common::Nothing => Common::Alike(Supposed {
                described,
                source: Source::Others,
            }),
            Common::Alike(all) if all.described.agrees(described) => Common::Alike(Supposed {
                described: Described {
                    snaplen: common_limit(all.described.snaplen, described.snaplen),
                    ..all.described
                },
                source: Source::Others,
            }),
            _ => Common::Different,
        }
    }
}

// Returns the snapshot length of two interfaces, or 0, no limit, if theirs differ.
fn common_limit(one: u32, other: u32) -> u32 {
    if one == other { one } else { 0 }
}

impl Source {
    // Returns whether the packets after such a description are guesses.
    fn is_guess(self) -> bool
        ensures { result ≡ is_guessed_source self }
    {
        match self {
            Source::Others | Source::Header => false,
            Source::Link | Source::Assumed => true,
        }
    }
}

impl Fate {
    /// Returns whether the packets are guesses.
    pub fn is_guess(self) -> bool
        ensures { result ≡ is_guessed_fate self }
    {
        match self {
            Fate::Described(_, source) => source.is_guess(),
            Fate::Kept => true,
            Fate::OthersDiffer | Fate::TooHigh | Fate::Disputed => false,
        }
    }

    /// Returns whether the packets are left out.
    pub fn is_left_out(self) -> bool
        ensures { result ≡ is_left_out_fate self }
    {
        match self {
            Fate::Described(..) | Fate::Kept => false,
            Fate::OthersDiffer | Fate::TooHigh | Fate::Disputed => true,
        }
    }
}

impl Describing {
    /// Returns a value for which each block is taken.
    pub(crate) fn off(alloc: Global) -> Describing {
        Describing::new(alloc, false, None)
    }

    /// Returns a value by which interfaces are described, those of a section without any description by `supposed`.
    pub(crate) fn on(alloc: Global, supposed: Option<Supposed>) -> Describing {
        Describing::new(alloc, true, supposed)
    }

    fn new(alloc: Global, is_on: bool, supposed: Option<Supposed>) -> Describing {
        Describing {
            alloc,
            is_on,
            supposed,
            common: Common::Nothing,
            first_written: None,
            is_disputed: false,
            is_guess: false,
            reported: None,
            text: Vec::new(alloc),
        }
    }

    /// Returns the descriptions that the last report is about.
    pub(crate) fn text(&self) -> &[u8]
        ensures { result.now ≡ self.now.text.items }
    {
        self.text.as_slice()
    }

    /// Returns whether the link type of the section's packets is a guess.
    pub(crate) fn is_guess(&self) -> bool
        ensures { result ≡ self.now.is_guess }
    {
        self.is_guess
    }

    /// Follows the block at the front of these bytes, after it was put in force.
    pub(crate) fn follow(&mut self, in_force: &InForce, bytes: &[u8]) {
        match number_at(in_force.order(), bytes, 0) {
            Some(SECTION) => {
                self.common = Common::Nothing;
                self.first_written = None;
                self.is_disputed = false;
                self.is_guess = false;
                self.reported = None;
            }
            Some(DESCRIPTION) => {
                let last = count_in(in_force).saturating_sub(1);
                let described = in_force.interface(last).map(Described::of);
                self.common = self.common.with(described);
                let is_different = matches!(self.common, Common::Different);
                self.is_disputed = self.first_written.is_some() && is_different;
            }
            _ => {}
        }
    }

    /// Finds out what to do with the block at the front of these bytes, and describes its interface if that is possible.
    pub(crate) fn judge(&mut self, in_force: &mut InForce, bytes: &[u8]) -> io::Result<Next> {
        self.text.clear();
        let Some(undescribed) = self.undescribed(in_force, bytes) else {
            return Ok(Next::Take);
        };
        let Undescribed { interface, fate } = undescribed;
        match (fate, self.reported) {
            (Fate::Described(..), _) => self.describe_up_to(in_force, interface)?,
            (Fate::Kept, Some(_)) => return Ok(Next::Take),
            _ if self.has_left_out(interface) && fate.is_left_out() => return Ok(Next::LeaveOut),
            _ => self.reported = Some(undescribed),
        }
        self.is_guess = self.is_guess || fate.is_guess();
        Ok(Next::Report(undescribed))
    }

    /// Returns whether the next block is left out as the last one was. Its first bytes are enough.
    pub(crate) fn leaves_out(&self, in_force: &InForce, bytes: &[u8]) -> bool {
        match self.undescribed(in_force, bytes) {
            Some(next) => next.fate.is_left_out() && self.has_left_out(next.interface),
            None => false,
        }
    }

    // Returns whether the last report was that packets of this interface are left out.
    fn has_left_out(&self, interface: u32) -> bool {
        self.reported.is_some_and(|last| last.interface == interface && last.fate.is_left_out())
    }

    // Returns the interface of the block at the front of these bytes, if it isn't described, and what becomes of the block.
    fn undescribed(&self, in_force: &InForce, bytes: &[u8]) -> Option<Undescribed> {
        if !self.is_on {
            return None;
        }
        let interface = interface_in(in_force.order(), bytes)?;
        let count = in_force.count();
        let fate = if (interface as usize) < count {
            let first = self.first_written.filter(|_| self.is_disputed)?;
            if interface < first {
                return None;
            }
            Fate::Disputed
        } else {
            self.fate(count, interface)
        };
        Some(Undescribed { interface, fate })
    }

    // Returns what becomes of the packets of an undescribed interface, in a section that describes so many.
    fn fate(&self, count: usize, interface: u32) -> Fate {
        let is_too_high = interface as usize >= count.saturating_add(MOST);
        match (self.common, self.supposed) {
            (Common::Nothing, None) => Fate::Kept,
            _ if is_too_high => Fate::TooHigh,
            (Common::Different, _) => Fate::OthersDiffer,
            (Common::Alike(like), _) | (Common::Nothing, Some(like)) => {
                Fate::Described(u32::from(like.described.link), like.source)
            }
        }
    }

    // Writes descriptions of the interfaces up to this one, and puts these interfaces in force.
    fn describe_up_to(&mut self, in_force: &mut InForce, interface: u32) -> io::Result<()> {
        let like = match (self.common, self.supposed) {
            (Common::Alike(like), _) | (Common::Nothing, Some(like)) => like,
            _ => return Ok(()),
        };
        let (mut body, mut text) = (Vec::new(self.alloc), Vec::new(self.alloc));
        let order = in_force.order();
        match describe(self.alloc, order, like.described, &mut body, &mut text) {
            Ok(()) => {}
            Err(Unput::Memory(error)) => return Err(io::Error::from(error)),
            Err(Unput::Unfit(_)) => return Err(io::Error::from(ErrorKind::InvalidData)),
        }
        self.first_written = Some(self.first_written.unwrap_or(count_in(in_force)));
        self.common = Common::Alike(like);
        for _ in 0..MOST {
            if (interface as usize) < in_force.count() {
                break;
            }
            self.text.extend_from_slice(text.as_slice())?;
            read_description(in_force, text.as_slice())?;
        }
        Ok(())
    }
}

// Returns the number of interfaces that the section in force describes, as far as a packet can name them.
fn count_in(in_force: &InForce) -> u32 {
    u32::try_from(in_force.count()).unwrap_or(u32::MAX)
}

// Puts a description in force.
fn read_description(in_force: &mut InForce, text: &[u8]) -> io::Result<()> {
    match in_force.follow(text) {
        Ok(_) => Ok(()),
        Err(PcapError::OutOfMemory(error)) => Err(io::Error::from(error)),
        Err(_) => Err(io::Error::from(ErrorKind::InvalidData)),
    }
}

/// Returns whether the block at the front of these bytes names no interface that is taken for corrupt.
pub(crate) fn names_a_near_interface(in_force: &InForce, bytes: &[u8]) -> bool {
    let most = in_force.count().saturating_add(MOST);
    match interface_in(in_force.order(), bytes) {
        Some(interface) => (interface as usize) < most,
        None => true,
    }
}

// Returns the interface of the packet or statistics at the front of these bytes.
fn interface_in(order: Endianness, bytes: &[u8]) -> Option<u32> {
    if number_at(order, bytes, LENGTH)? < WITH_INTERFACE {
        return None;
    }
    let number = number_at(order, bytes, INTERFACE)?;
    match (number_at(order, bytes, 0)?, order) {
        (SIMPLE, _) => Some(0),
        (ENHANCED | STATISTICS, _) => Some(number),
        (OBSOLETE, Endianness::Big) => Some(number >> 16),
        (OBSOLETE, Endianness::Little) => Some(number & 0xFFFF),
        _ => None,
    }
}
