//! Packets in a given form: a line, and rows of the bytes if they follow it.

ghost use Rattle.std.specs.Prelude.{◌≡◌, IfErr};
ghost use Rattle.pcap_program.specs.Exits.{IsMemoryExit};
ghost use Rattle.pcap_program.specs.Lines.{WritesLine};
ghost use Rattle.pcapfile_lines.specs.Lines.{IsItemIn};
ghost use Rattle.pcapfile_lines.specs.Rows.{rows_text};

use pcap_program::{Exit, put_line};
use pcapfile_lines::{Form, Seen, line_of, row_at, row_count};
use std::alloc::Global;
use std::io::Write;

// Writes the rows of a packet's bytes, and an empty line. Each is one write.
fn put_rows<W: Write>(output: &mut W, bytes: &[u8]) -> Result<(), Exit>
    ensures writes { WritesLine (λ text. text ≡ rows_text bytes.now) (W.contents output.old) (W.contents output.new) result }
    ensures no_memory { IfErr result (λ exit. IsMemoryExit exit → ⊥) }
{
    for number in 0..row_count(bytes.len()) {
        let row = row_at(bytes, number);
        put_line(output, row.as_slice())?;
    }
    put_line(output, b"\n")
}

/// Writes the packet with this number and these stored bytes. `None` means a packet with a malformed body.
pub(crate) fn write_item<W: Write>(
    alloc: Global,
    output: &mut W,
    form: Form,
    number: u64,
    packet: Option<Seen>,
    bytes: &[u8],
) -> Result<(), Exit>
    ensures { WritesLine (IsItemIn form number packet bytes.now) (W.contents output.old) (W.contents output.new) result }
{
    let line = line_of(alloc, form, number, packet)?;
    put_line(output, line.as_bytes())?;
    if !form.has_rows() {
        return Ok(());
    }
    put_rows(output, bytes)
}
