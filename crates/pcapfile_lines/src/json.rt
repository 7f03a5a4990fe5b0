//! The line of a packet as a JSON object.

ghost use Rattle.std.specs.Prelude.{◌≡◌, IfOk, OnOk, string_bytes};
ghost use Rattle.serde_json.specs.View.{members_view, view};
ghost use Rattle.pcapfile_lines.specs.Lines.{json_line, number_or_null, packet_data, with_sizes, with_time};

use crate::columns::Columns;
use serde_json::{Map, Value, put};
use std::alloc::{AllocError, Global};

// Returns a JSON number, or null.
fn number(number: Option<u64>) -> Value
    ensures { view result ≡ number_or_null number }
{
    match number {
        None => Value::Null,
        Some(number) => Value::from(number),
    }
}

// Returns a 32-bit JSON number, or null.
fn short(number: Option<u32>) -> Value
    ensures { view result ≡ number_or_null number }
{
    match number {
        None => Value::Null,
        Some(number) => Value::from(number),
    }
}

// Adds the packet's number and its time.
fn put_time(
    map: &mut Map<String, Value>,
    alloc: Global,
    index: u64,
    columns: Columns,
) -> Result<(), AllocError>
    ensures { OnOk result (members_view map.new.entries ≡ with_time index columns (members_view map.old.entries)) }
{
    put(map, alloc, "index", Value::from(index))?;
    put(map, alloc, "seconds", number(columns.seconds))?;
    put(map, alloc, "nanoseconds", short(columns.nanoseconds))
}

// Adds its lengths and its interface.
fn put_sizes(
    map: &mut Map<String, Value>,
    alloc: Global,
    columns: Columns,
) -> Result<(), AllocError>
    ensures { OnOk result (members_view map.new.entries ≡ with_sizes columns (members_view map.old.entries)) }
{
    put(map, alloc, "captured", number(columns.captured))?;
    put(map, alloc, "original", short(columns.original))?;
    put(map, alloc, "interface", short(columns.interface))
}

// Returns the object of a packet.
fn object(alloc: Global, index: u64, columns: Columns) -> Result<Value, AllocError>
    ensures { IfOk result (λ value. view value ≡ packet_data index columns) }
{
    let mut map = Map::new(alloc);
    put_time(&mut map, alloc, index, columns)?;
    put_sizes(&mut map, alloc, columns)?;
    Ok(Value::Object(map))
}

/// Returns the line of a packet as a JSON object.
pub(crate) fn json(alloc: Global, index: u64, columns: Columns) -> Result<String, AllocError>
    ensures { IfOk result (λ line. string_bytes line ≡ json_line index columns) }
{
    let mut line = object(alloc, index, columns)?.to_string(alloc)?;
    line.push('\n')?;
    Ok(line)
}
