//! Descriptions of sections and interfaces.

ghost use Rattle.std.specs.Prelude.{⊤, ◌≡◌, ◌++◌, map, IfOk, IsSomeAnd, MatchResult};
ghost use Rattle.std.specs.Option.{option_map, option_to_list};
ghost use Rattle.std.specs.String.{string_bytes};
ghost use Rattle.pcap_options.specs.Held.{string_in, under};
ghost use Rattle.pcap_options.specs.InterfaceOption.{interface_entry};
ghost use Rattle.pcap_blocks.specs.InterfaceDescription.{interface_of};
ghost use Rattle.pcap_options.specs.SectionOption.{section_entry};
ghost use Rattle.pcap_blocks.specs.SectionHeader.{section_of};
ghost use Rattle.pcap_options.specs.Values.{Entry};
ghost use Rattle.pcapfile_info.specs.Describing.{comments_among, device_in, device_told, HasComment, HasMachine, last_description, machine_in, machine_told, no_machine, opened_of, TellsMore, told_of};

use pcap_file::pcapng::{
    InterfaceDescriptionBlock, InterfaceDescriptionOption, SectionHeaderBlock, SectionHeaderOption,
};
use pcap_file::{DataLink, Endianness};
use std::alloc::{AllocError, Global};

/// The byte order and version that the first section header of a PcapNg capture names.
#[derive(Clone, Copy, Debug, PartialEq, Eq)]
pub struct Opened {
    /// The byte order of the section.
    pub order: Endianness,
    /// Major version number, usually 1.
    pub major_version: u16,
    /// Minor version number, usually 0.
    pub minor_version: u16,
}

/// The description of one interface of a PcapNg capture.
#[derive(Debug, Drop)]
pub struct Described {
    /// The link type.
    pub link: DataLink,
    /// The snapshot length: the most bytes stored for each packet; 0 means no limit.
    pub snaplen: u32,
    /// The number of its section; the first is 1.
    pub section: u64,
    /// The interface's number in its section, from 0.
    pub number: usize,
    /// The interface's name. `None` if it has none.
    pub name: Option<String>,
    /// What its options say of the device.
    pub device: Device,
    /// The comments on the interface.
    pub comments: Vec<String>,
}

/// What the options of an interface say of its device. The texts take memory only if there are any.
#[derive(Debug, Drop)]
pub enum Device {
    /// Nothing.
    Untold,
    /// These texts.
    Told(Box<DeviceTexts>),
}

/// The texts of an interface on its device. A text is `None` if the interface has none.
#[derive(Debug, Drop)]
pub struct DeviceTexts {
    /// The description of the device (if_description).
    pub description: Option<String>,
    /// The description of its hardware (if_hardware).
    pub hardware: Option<String>,
    /// The operating system of its machine (if_os).
    pub os: Option<String>,
}

/// What the options of a section say of how it was made. A text is `None` if the section has none.
#[derive(Debug, Drop)]
pub struct Machine {
    /// The application that made the section (shb_userappl).
    pub application: Option<String>,
    /// The hardware on which it was made (shb_hardware).
    pub hardware: Option<String>,
    /// The operating system on which it was made (shb_os).
    pub os: Option<String>,
}

impl Machine {
    // Returns what a capture without sections says.
    pub(crate) fn unknown() -> Machine
        ensures { machine_told result ≡ no_machine }
    {
        Machine {
            application: None,
            hardware: None,
            os: None,
        }
    }
}

// An option that may be a comment.
trait Commenting {
    // The option, wherever its bytes are.
    ghost entry: { Self → Entry };

    fn comment(&self) -> Option<&str>
        ensures { option_map (λ string. string.now) result ≡ under 1 string_in (entry self.now) };
}

impl Commenting for SectionHeaderOption<'static> {
    ghost entry = { section_entry };

    fn comment(&self) -> Option<&str> {
        match self {
            SectionHeaderOption::Comment(text) => Some(text.as_str()),
            _ => None,
        }
    }
}

impl Commenting for InterfaceDescriptionOption<'static> {
    ghost entry = { interface_entry };

    fn comment(&self) -> Option<&str> {
        match self {
            InterfaceDescriptionOption::Comment(text) => Some(text.as_str()),
            _ => None,
        }
    }
}

// Appends the text of an option that is a comment.
fn push_comment<O: Commenting>(
    alloc: Global,
    comments: &mut Vec<String>,
    option: &O,
) -> Result<(), AllocError>
    ensures { MatchResult result
        (λ done. map string_bytes comments.new.items ≡ map string_bytes comments.old.items ++ option_to_list (under 1 string_in (O.entry option.now)))
        (λ e. (comments.new.items ≡ comments.old.items) × IsSomeAnd (under 1 string_in (O.entry option.now)) (λ text. ⊤)) }
{
    let Some(text) = option.comment() else {
        return Ok(());
    };
    comments.push(String::from_str(alloc, text)?)?;
    Ok(())
}

// Appends the comments among options.
fn push_comments_among<O: Commenting>(
    alloc: Global,
    comments: &mut Vec<String>,
    options: &[O],
) -> Result<(), AllocError>
    ensures { MatchResult result
        (λ done. map string_bytes comments.new.items ≡ map string_bytes comments.old.items ++ comments_among (map O.entry options.now))
        (λ e. TellsMore (map string_bytes comments.old.items) (map string_bytes comments.new.items) × HasComment (map O.entry options.now)) }
{
    for option in options {
        push_comment(alloc, comments, option)?;
    }
    Ok(())
}

/// Returns the byte order and version of a section header. `None` if its magic number names no order; every section that was
/// read names one.
pub(crate) fn opened_by(section: &SectionHeaderBlock<'static>) -> Option<Opened>
    ensures { result ≡ opened_of (section_of section.now) }
{
    if !section.has_valid_magic() {
        return None;
    }
    Some(Opened {
        order: section.endianness(),
        major_version: section.major_version,
        minor_version: section.minor_version,
    })
}

// Copies a string.
fn owned(alloc: Global, text: Option<&str>) -> Result<Option<String>, AllocError>
    ensures { MatchResult result
        (λ told. option_map string_bytes told ≡ option_map (λ string. string.now) text.entry)
        (λ e. IsSomeAnd text.entry (λ string. ⊤)) }
{
    let Some(text) = text else {
        return Ok(None);
    };
    Ok(Some(String::from_str(alloc, text)?))
}

/// Returns what the options of a section say of how it was made. An `Err` occurs only if they say something.
pub(crate) fn machine_of(
    alloc: Global,
    section: &SectionHeaderBlock<'static>,
) -> Result<Machine, AllocError>
    ensures { MatchResult result
        (λ machine. machine_told machine ≡ machine_in (section_of section.now).options)
        (λ e. HasMachine (section_of section.now).options) }
{
    let application = owned(alloc, section.application())?;
    let hardware = owned(alloc, section.hardware())?;
    let os = owned(alloc, section.os())?;
    Ok(Machine {
        application,
        hardware,
        os,
    })
}

// Returns what the options of an interface say of its device.
fn device_of(
    alloc: Global,
    interface: &InterfaceDescriptionBlock<'static>,
) -> Result<Device, AllocError>
    ensures { IfOk result (λ device. device_told device ≡ device_in (interface_of interface.now).options) }
{
    match (
        interface.description(),
        interface.hardware(),
        interface.os(),
    ) {
        (None, None, None) => Ok(Device::Untold),
        (description, hardware, os) => {
            let texts = DeviceTexts {
                description: owned(alloc, description)?,
                hardware: owned(alloc, hardware)?,
                os: owned(alloc, os)?,
            };
            Ok(Device::Told(Box::new(alloc, texts)?))
        }
    }
}

/// Describes the last of a section's interfaces. `None` if there are none.
pub(crate) fn describe_last(
    alloc: Global,
    section: u64,
    interfaces: &[InterfaceDescriptionBlock<'static>],
) -> Result<Option<Described>, AllocError>
    ensures { IfOk result (λ told. option_map told_of told ≡ last_description section (map interface_of interfaces.now)) }
{
    let Some(interface) = interfaces.last() else {
        return Ok(None);
    };
    let mut comments = Vec::new(alloc);
    push_comments_among(alloc, &mut comments, &interface.options)?;
    Ok(Some(Described {
        link: interface.linktype,
        snaplen: interface.snaplen,
        section,
        number: interfaces.len() - 1,
        name: owned(alloc, interface.name())?,
        device: device_of(alloc, interface)?,
        comments,
    }))
}

/// Appends the comments on a section. An `Err` keeps the old comments, and occurs only if the section has a comment.
pub(crate) fn push_comments(
    alloc: Global,
    comments: &mut Vec<String>,
    section: &SectionHeaderBlock<'static>,
) -> Result<(), AllocError>
    ensures { MatchResult result
        (λ done. map string_bytes comments.new.items ≡ map string_bytes comments.old.items ++ comments_among (section_of section.now).options)
        (λ e. TellsMore (map string_bytes comments.old.items) (map string_bytes comments.new.items) × HasComment (section_of section.now).options) }
{
    push_comments_among(alloc, comments, &section.options)
}
