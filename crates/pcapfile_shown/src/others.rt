//! Counts of blocks that are no packets, as text and as JSON.

ghost use Rattle.std.specs.Prelude.{◌≡◌, IfOk};
ghost use Rattle.serde_json.specs.View.{view};
ghost use Rattle.pcapfile_shown.specs.Json.{others_data};

use pcapfile_info::Others;
use serde_json::{Map, Value, put};
use std::alloc::{AllocError, Global};
use std::fmt;

/// The lines on blocks that are no packets, one for each kind that occurs.
#[derive(Clone, Copy)]
pub(crate) struct OtherBlocks<'a>(pub(crate) &'a Others);

// Writes the line on one kind, if it occurs.
fn write_kind<W: fmt::Write>(f: &mut fmt::Formatter<W>, label: &str, count: u64) -> fmt::Result {
    if count == 0 {
        return Ok(());
    }
    writeln!(f, "  {label} {count}")
}

impl fmt::Display for OtherBlocks<'_> {
    fn fmt<W: fmt::Write>(&self, f: &mut fmt::Formatter<W>) -> fmt::Result {
        let others = self.0;
        write_kind(f, "Name blocks:      ", others.names)?;
        write_kind(f, "Statistics blocks:", others.statistics)?;
        write_kind(f, "Journal blocks:   ", others.journal)?;
        write_kind(f, "Secrets blocks:   ", others.secrets)?;
        write_kind(f, "Custom blocks:    ", others.custom)?;
        write_kind(f, "Unknown blocks:   ", others.unknown)
    }
}

/// Returns an object with the number of blocks of each kind.
pub(crate) fn by_kind(alloc: Global, others: &Others) -> Result<Value, AllocError>
    ensures { IfOk result (λ v. view v ≡ others_data others.now) }
{
    let mut map = Map::new(alloc);
    put(&mut map, alloc, "names", Value::from(others.names))?;
    put(
        &mut map,
        alloc,
        "statistics",
        Value::from(others.statistics),
    )?;
    put(&mut map, alloc, "journal", Value::from(others.journal))?;
    put(&mut map, alloc, "secrets", Value::from(others.secrets))?;
    put(&mut map, alloc, "custom", Value::from(others.custom))?;
    put(&mut map, alloc, "unknown", Value::from(others.unknown))?;
    Ok(Value::Object(map))
}
