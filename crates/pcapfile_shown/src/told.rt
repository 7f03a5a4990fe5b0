//! The JSON report on a capture.

ghost use Rattle.std.specs.Prelude.{◌≡◌, ℕ, List, false, option_map, IfOk, OnOk};
ghost use Rattle.std.specs.Fmt.{WritesInCalls};
ghost use Rattle.serde_json.specs.Data.{Data};
ghost use Rattle.serde_json.specs.View.{items_of, members_view, view};
ghost use Rattle.serde_json.specs.Written.{compact_text};
ghost use Rattle.pcap_core.specs.Link.{link_number};
ghost use Rattle.pcapfile_run.specs.Lines.{format_name};
ghost use Rattle.pcapfile_shown.specs.Json.{number_data, or_null, Tells, TellsCheck, TellsFile, TellsHeader, TellsInterface, TellsInterfaces, TellsWhole, text_or_null};
ghost use Rattle.pcapfile_shown.specs.Json.{texts_data, with_description, with_device, with_digest, with_kind, with_machine, with_no_texts, with_link, with_link_field, with_opened, with_texts};
ghost use Rattle.pcapfile_shown.specs.Pieces.{items_inside};

use crate::members::{put_figures, spread_or_null};
use crate::others::by_kind;
use crate::piecewise::{
    Unwritten, comma, text_around, write_before, write_behind, write_text, write_value,
};
use crate::report::{order_name, resolution_name};
use pcap_core::{DataLink, LinkField};
use pcap_file::pcap::PcapHeader;
use pcapfile_info::{Described, Device, DeviceTexts, Information, Late, Machine, Opened};
use pcapfile_run::{Checked, Format};
use serde_json::{Map, Value, push, put};
use std::alloc::{AllocError, Global};
use std::fmt;

/// Returns the name of a format.
pub(crate) fn name_of(format: Format) -> &'static str
    ensures { result.now ≡ format_name format }
{
    match format {
        Format::Pcap => "pcap",
        Format::PcapNg => "pcapng",
    }
}

// Returns an array of these texts, in order.
#[tactic(auto, using(crate::proofs::Numbers::texts_more))]
fn texts(alloc: Global, texts: &[String]) -> Result<Value, AllocError>
    ensures { IfOk result (λ v. view v ≡ texts_data texts.now) }
{
    let mut values = Vec::new(alloc);
    for text in texts.iter() {
        push(&mut values, Value::try_from_str(alloc, text.as_str())?)?;
    }
    Ok(Value::Array(values))
}

fn text_or_null(alloc: Global, text: &Option<String>) -> Result<Value, AllocError>
    ensures { IfOk result (λ v. view v ≡ text_or_null text.now) }
{
    match text {
        None => Ok(Value::Null),
        Some(text) => Value::try_from_str(alloc, text.as_str()),
    }
}

fn length_or_null(length: Option<u8>) -> Value
    ensures { view result ≡ or_null number_data length }
{
    match length {
        None => Value::Null,
        Some(length) => Value::from(length),
    }
}

// Puts the number of a link type, and its name.
fn put_link(map: &mut Map<String, Value>, alloc: Global, link: DataLink) -> Result<(), AllocError>
    ensures { OnOk result ((name : List ℕ) × (members_view map.new.entries ≡ with_link (link_number link) name (members_view map.old.entries))) }
{
    let name = format!(in alloc; "{link:?}")?;
    put(map, alloc, "link", Value::from(u32::from(link)))?;
    put(map, alloc, "link_name", Value::String(name))
}

// Puts the link type of a classic capture, and the length of the frame check sequences of its packets.
fn put_link_field(
    map: &mut Map<String, Value>,
    alloc: Global,
    header: &PcapHeader,
) -> Result<(), AllocError>
    ensures { OnOk result ((name : List ℕ) × (members_view map.new.entries ≡ with_link_field header.now name (members_view map.old.entries))) }
{
    let LinkField { link, fcs_len } = LinkField::from(u32::from(header.datalink));
    put_link(map, alloc, link)?;
    put(map, alloc, "fcs_len", length_or_null(fcs_len))
}

// Puts the byte order and the timestamp resolution, if the magic number names them.
fn put_kind(
    map: &mut Map<String, Value>,
    alloc: Global,
    header: &PcapHeader,
) -> Result<(), AllocError>
    ensures { OnOk result (members_view map.new.entries ≡ with_kind header.now.magic_number (members_view map.old.entries)) }
{
    if !header.has_valid_magic() {
        return Ok(());
    }
    let order = Value::try_from_str(alloc, order_name(header.endianness()))?;
    let resolution = Value::try_from_str(alloc, resolution_name(header.ts_resolution()))?;
    put(map, alloc, "order", order)?;
    put(map, alloc, "resolution", resolution)
}

// Puts the header of a classic capture, if there is one.
fn put_header(
    map: &mut Map<String, Value>,
    alloc: Global,
    header: &Option<PcapHeader>,
) -> Result<(), AllocError>
    ensures { OnOk result (TellsHeader header.now (members_view map.old.entries) (members_view map.new.entries)) }
{
    let Some(header) = header else {
        return Ok(());
    };
    let major = header.version_major;
    let minor = header.version_minor;
    let version = format!(in alloc; "{major}.{minor}")?;
    put(map, alloc, "version", Value::String(version))?;
    put(map, alloc, "snaplen", Value::from(header.snaplen))?;
    put_link_field(map, alloc, header)?;
    put_kind(map, alloc, header)
}

// Puts the opening of a PcapNg capture, if there is one.
fn put_opened(
    map: &mut Map<String, Value>,
    alloc: Global,
    opened: Option<Opened>,
) -> Result<(), AllocError>
    ensures { OnOk result (members_view map.new.entries ≡ with_opened opened (members_view map.old.entries)) }
{
    let Some(opened) = opened else {
        return Ok(());
    };
    let major = opened.major_version;
    let minor = opened.minor_version;
    let version = format!(in alloc; "{major}.{minor}")?;
    let order = Value::try_from_str(alloc, order_name(opened.order))?;
    put(map, alloc, "version", Value::String(version))?;
    put(map, alloc, "order", order)
}

// Puts the texts on a device.
fn put_texts(
    map: &mut Map<String, Value>,
    alloc: Global,
    texts: &DeviceTexts,
) -> Result<(), AllocError>
    ensures { OnOk result (members_view map.new.entries ≡ with_texts texts.now (members_view map.old.entries)) }
{
    let description = text_or_null(alloc, &texts.description)?;
    let hardware = text_or_null(alloc, &texts.hardware)?;
    let os = text_or_null(alloc, &texts.os)?;
    put(map, alloc, "description", description)?;
    put(map, alloc, "hardware", hardware)?;
    put(map, alloc, "os", os)
}

// Puts null for each text on a device.
fn put_no_texts(map: &mut Map<String, Value>, alloc: Global) -> Result<(), AllocError>
    ensures { OnOk result (members_view map.new.entries ≡ with_no_texts (members_view map.old.entries)) }
{
    put(map, alloc, "description", Value::Null)?;
    put(map, alloc, "hardware", Value::Null)?;
    put(map, alloc, "os", Value::Null)
}

// Puts what an interface says of its device.
fn put_device(
    map: &mut Map<String, Value>,
    alloc: Global,
    device: &Device,
) -> Result<(), AllocError>
    ensures { OnOk result (members_view map.new.entries ≡ with_device device.now (members_view map.old.entries)) }
{
    match device {
        Device::Told(texts) => put_texts(map, alloc, texts),
        Device::Untold => put_no_texts(map, alloc),
    }
}

// Puts what the first section says of how it was made.
fn put_machine(
    map: &mut Map<String, Value>,
    alloc: Global,
    machine: &Machine,
) -> Result<(), AllocError>
    ensures { OnOk result (members_view map.new.entries ≡ with_machine machine.now (members_view map.old.entries)) }
{
    let application = text_or_null(alloc, &machine.application)?;
    let hardware = text_or_null(alloc, &machine.hardware)?;
    let os = text_or_null(alloc, &machine.os)?;
    put(map, alloc, "application", application)?;
    put(map, alloc, "hardware", hardware)?;
    put(map, alloc, "os", os)
}

// Puts the description of an interface.
fn put_description(
    map: &mut Map<String, Value>,
    alloc: Global,
    described: &Described,
) -> Result<(), AllocError>
    ensures { OnOk result ((link_name : List ℕ) × (members_view map.new.entries ≡ with_description described.now link_name (members_view map.old.entries))) }
{
    let name = text_or_null(alloc, &described.name)?;
    let comments = texts(alloc, described.comments.as_slice())?;
    put(map, alloc, "section", Value::from(described.section))?;
    put(map, alloc, "number", Value::from(described.number))?;
    put(map, alloc, "snaplen", Value::from(described.snaplen))?;
    put(map, alloc, "name", name)?;
    put(map, alloc, "comments", comments)?;
    put_device(map, alloc, &described.device)?;
    put_link(map, alloc, described.link)
}

// Returns the description of an interface and the counts of its packets.
fn interface(alloc: Global, described: &Described, counts: &Late) -> Result<Value, AllocError>
    ensures { IfOk result (λ v. TellsInterface (described.now, counts.now) (view v)) }
{
    let tally = &counts.tally();
    let over_time = spread_or_null(alloc, &tally.spread)?;
    let mut map = Map::new(alloc);
    put_description(&mut map, alloc, described)?;
    put_figures(&mut map, alloc, tally)?;
    put(&mut map, alloc, "over_time", over_time)?;
    Ok(Value::Object(map))
}

// Writes the interfaces, with commas between them.
fn write_interfaces<W: fmt::Write>(
    alloc: Global,
    told: &Information,
    output: &mut W,
) -> Result<(), Unwritten>
    ensures { OnOk result ((shown : List Data) × TellsInterfaces told.now shown
        × WritesInCalls W.write_str_gives output.old (items_inside false (items_of shown)) output.new) }
{
    let mut later = false;
    for (described, counts) in told.described.iter().zip(told.totals.interfaces.iter()) {
        let value = interface(alloc, described, counts)?;
        write_text(comma(later), output)?;
        write_value(alloc, &value, output)?;
        later = true;
    }
    Ok(())
}

// Puts the name of a file, its format, and the result of its check.
fn put_check(
    map: &mut Map<String, Value>,
    alloc: Global,
    name: &str,
    checked: &Checked,
) -> Result<(), AllocError>
    ensures { OnOk result (TellsCheck name.now checked.now (members_view map.old.entries) (members_view map.new.entries)) }
{
    let line = format!(in alloc; "{checked}")?;
    let name = Value::try_from_str(alloc, name)?;
    let format = Value::try_from_str(alloc, name_of(checked.format))?;
    put(map, alloc, "file", name)?;
    put(map, alloc, "format", format)?;
    put(map, alloc, "check", Value::String(line))?;
    put(map, alloc, "status", Value::from(checked.status()))?;
    put(map, alloc, "bytes", Value::from(checked.bytes))
}

// Puts the result of the check, and the capture's opening.
fn put_file(
    map: &mut Map<String, Value>,
    alloc: Global,
    name: &str,
    told: &Information,
) -> Result<(), AllocError>
    ensures { OnOk result (TellsFile name.now told.now (members_view map.old.entries) (members_view map.new.entries)) }
{
    put_check(map, alloc, name, &told.checked)?;
    put_header(map, alloc, &told.header)?;
    put_opened(map, alloc, told.opened)
}

// Puts the digest of a file's bytes, if it is given.
fn put_digest(
    map: &mut Map<String, Value>,
    alloc: Global,
    digest: Option<&str>,
) -> Result<(), AllocError>
    ensures { OnOk result (members_view map.new.entries ≡ with_digest (option_map (λ text. text.now) digest.entry) (members_view map.old.entries)) }
{
    let Some(digest) = digest else {
        return Ok(());
    };
    put(map, alloc, "sha256", Value::try_from_str(alloc, digest)?)
}

// Returns the members of the JSON report on the capture of this name and digest, except its interfaces.
fn told_of(
    alloc: Global,
    name: &str,
    digest: Option<&str>,
    told: &Information,
) -> Result<Map<String, Value>, AllocError>
    ensures { IfOk result (λ map. TellsWhole name.now (option_map (λ text. text.now) digest.entry) told.now (members_view map.entries)) }
{
    let comments = texts(alloc, told.comments.as_slice())?;
    let over_time = spread_or_null(alloc, &told.totals.all.spread)?;
    let blocks = by_kind(alloc, &told.totals.others)?;
    let mut map = Map::new(alloc);
    put_file(&mut map, alloc, name, told)?;
    put_digest(&mut map, alloc, digest)?;
    put_machine(&mut map, alloc, &told.machine)?;
    put(&mut map, alloc, "comments", comments)?;
    put(&mut map, alloc, "over_time", over_time)?;
    let sections = told.totals.sections.saturating_add(1);
    put(&mut map, alloc, "sections", Value::from(sections))?;
    put(&mut map, alloc, "refused", Value::from(told.totals.refused))?;
    put(&mut map, alloc, "blocks", blocks)?;
    put_figures(&mut map, alloc, &told.totals.all)?;
    Ok(map)
}

/// Writes the JSON report on the capture of this name in one line: each member once, in the order of their names. If the digest of its
/// bytes is given, it is the member `sha256`. In memory are one interface and the other members.
pub fn write_json<W: fmt::Write>(
    alloc: Global,
    name: &str,
    digest: Option<&str>,
    told: &Information,
    output: &mut W,
) -> Result<(), Unwritten>
    ensures { OnOk result ((shown : Data) × Tells name.now (option_map (λ text. text.now) digest.entry) told.now shown
        × WritesInCalls W.write_str_gives output.old (compact_text shown) output.new) }
{
    let text = text_around(alloc, told_of(alloc, name, digest, told)?)?;
    write_before(text.front.as_str(), "]}", output)?;
    write_interfaces(alloc, told, output)?;
    write_behind(text.back.as_str(), "{\"interfaces\":[", output)?;
    Ok(())
}
