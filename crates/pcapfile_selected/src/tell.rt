//! Messages about selected packets on standard error, and exit statuses.

use crate::account::Account;
use crate::source::Exceptions;
use pcap_file::PcapError;
use pcapfile_cut::Outcome;
use pcapfile_files::{AT_FAULT, Console, Count, Shown, tell_error, tell_refused};
use std::io;

/// Reports the error that ended a cut early, if any, and at which byte, and returns the exit status. `place` is the byte at
/// which the cut began to read packets.
pub fn tell_outcome(
    console: &Console,
    from: &str,
    place: u64,
    out: &str,
    outcome: &Outcome,
) -> io::Result<u8> {
    let Some(error) = &outcome.fault else {
        return Ok(0);
    };
    if outcome.write_failed {
        return tell_error(console, out, error);
    }
    let byte = place.saturating_add(outcome.bytes);
    if let Some(rule) = error.rule() {
        return tell_refused(console, from, byte, rule);
    }
    match error {
        PcapError::IoError(_) if !outcome.read_failed => {
            let shown = Shown(from);
            console.note_fault();
            eprintln!(console.for_line(); "pcapfile: {shown}: cut short at byte {byte}")?;
            Ok(AT_FAULT)
        }
        error => tell_error(console, from, error),
    }
}

/// Reports where the capture with this name ended the selection of its packets early, and what it left out, and returns the exit status.
pub fn tell_account(console: &Console, name: &str, account: &Account) -> io::Result<u8> {
    let status = match account.take_fault() {
        Some((place, outcome)) => tell_outcome(console, name, place, name, &outcome)?,
        None => 0,
    };
    tell_exceptions(console, name, account.exceptions())?;
    Ok(status)
}

/// Reports how many packets are left out because a test doesn't apply to them or as duplicates, and how many are not compared, shortened
/// or moved.
pub fn tell_exceptions(console: &Console, from: &str, packets: Exceptions) -> io::Result<()> {
    let Exceptions {
        malformed,
        without_time,
        duplicates,
        uncompared,
        whole_malformed,
        whole_simple,
        unmoved_malformed,
        unmoved,
    } = packets;
    let (left_out, whole, still) = ("left out", "did not shorten", "did not move");
    let with_malformed = "with a malformed body";
    tell_packets(console, from, left_out, malformed, with_malformed)?;
    tell_packets(console, from, left_out, without_time, "without a time")?;
    let as_duplicates = if duplicates == 1 {
        "as a duplicate"
    } else {
        "as duplicates"
    };
    tell_packets(console, from, left_out, duplicates, as_duplicates)?;
    tell_packets(console, from, "did not compare", uncompared, with_malformed)?;
    tell_packets(console, from, whole, whole_malformed, with_malformed)?;
    tell_packets(console, from, whole, whole_simple, "in a simple block")?;
    tell_packets(console, from, still, unmoved_malformed, with_malformed)?;
    let to_time = "to a time that the capture can't state";
    tell_packets(console, from, still, unmoved, to_time)
}

// Reports what was done with this many packets of this kind, if there are any.
fn tell_packets(
    console: &Console,
    from: &str,
    done: &str,
    count: u64,
    kind: &str,
) -> io::Result<()> {
    if count == 0 {
        return Ok(());
    }
    let (from, packets) = (Shown(from), Count(count, "packet", "packets"));
    eprintln!(console.for_line(); "pcapfile: {from}: {done} {packets} {kind}")?;
    Ok(())
}
