//! JSON that is written in pieces, so that the whole text is never in memory.

ghost use Rattle.std.specs.Prelude.{◌≡◌, ◌++◌, List, ℕ, false, string_bytes, IfOk, OnOk};
ghost use Rattle.std.specs.Fmt.{WritesInCalls};
ghost use Rattle.serde_json.specs.View.{members_view, view};
ghost use Rattle.serde_json.specs.Written.{comma_if, compact_text, has_float, members_have_float};
ghost use Rattle.pcapfile_shown.specs.Pieces.{IsAround};

use serde_json::{Map, Value, put};
use std::alloc::{AllocError, Global};
use std::fmt;

/// Why a report isn't written as a whole.
#[derive(Debug, Drop)]
pub enum Unwritten {
    /// There is no memory for a piece of it.
    Memory(AllocError),
    /// The output failed.
    Output(fmt::Error),
}

impl From<AllocError> for Unwritten {
    fn from(error: AllocError) -> Unwritten {
        Unwritten::Memory(error)
    }
}

impl From<fmt::Error> for Unwritten {
    fn from(error: fmt::Error) -> Unwritten {
        Unwritten::Output(error)
    }
}

/// Returns a comma, or nothing.
pub(crate) fn comma(later: bool) -> &'static str
    ensures { result.now ≡ comma_if later }
{
    if later { "," } else { "" }
}

/// Writes a text.
#[tactic(auto, using(crate::proofs::Pieces::wrote_once))]
pub(crate) fn write_text<W: fmt::Write>(text: &str, output: &mut W) -> Result<(), Unwritten>
    ensures { OnOk result (WritesInCalls W.write_str_gives output.old text.now output.new) }
{
    output.write_str(text)?;
    Ok(())
}

/// Writes a value in one line.
pub(crate) fn write_value<W: fmt::Write>(
    alloc: Global,
    value: &Value,
    output: &mut W,
) -> Result<(), Unwritten>
    ensures { OnOk result (has_float (view value.now) ≡ false → WritesInCalls W.write_str_gives output.old (compact_text (view value.now)) output.new) }
{
    let text = value.to_string(alloc)?;
    write_text(text.as_str(), output)
}

/// Writes a text up to this end of it.
pub(crate) fn write_before<W: fmt::Write>(
    text: &str,
    end: &str,
    output: &mut W,
) -> Result<(), Unwritten>
    ensures { OnOk result ((rest : List ℕ) × (text.now ≡ rest ++ end.now) × WritesInCalls W.write_str_gives output.old rest output.new) }
{
    let Some(rest) = text.strip_suffix(end) else {
        return Err(Unwritten::Output(fmt::Error));
    };
    write_text(rest, output)
}

/// Writes what follows this front of a text.
pub(crate) fn write_behind<W: fmt::Write>(
    text: &str,
    front: &str,
    output: &mut W,
) -> Result<(), Unwritten>
    ensures { OnOk result ((rest : List ℕ) × (text.now ≡ front.now ++ rest) × WritesInCalls W.write_str_gives output.old rest output.new) }
{
    let Some(rest) = text.strip_prefix(front) else {
        return Err(Unwritten::Output(fmt::Error));
    };
    write_text(rest, output)
}

/// The text of an object whose member "interfaces" is an array, in two parts: up to the array's items, and from there on. Each
/// part also has brackets, with which it is JSON of its own.
#[derive(Drop)]
pub(crate) struct Around {
    pub(crate) front: String,
    pub(crate) back: String,
}

/// Returns the text of an object with these members, around the items of the array "interfaces".
pub(crate) fn text_around(alloc: Global, members: Map<String, Value>) -> Result<Around, AllocError>
    ensures { IfOk result (λ text. members_have_float (members_view members.entries) ≡ false
        → IsAround (members_view members.entries) (string_bytes text.front) (string_bytes text.back)) }
{
    let mut front = members;
    let mut back = front.split_off("interfaces")?;
    put(
        &mut front,
        alloc,
        "interfaces",
        Value::Array(Vec::new(alloc)),
    )?;
    put(
        &mut back,
        alloc,
        "interfaces",
        Value::Array(Vec::new(alloc)),
    )?;
    Ok(Around {
        front: Value::Object(front).to_string(alloc)?,
        back: Value::Object(back).to_string(alloc)?,
    })
}
