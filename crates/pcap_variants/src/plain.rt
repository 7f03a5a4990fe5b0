//! The plain capture that has the packets of a capture of a variant.

ghost use Rattle.std.specs.Prelude.{◌≡◌, ◌≤◌, IsTrue, OnOk, drop, length};
ghost use Rattle.pcap_variants.specs.Plainly.{Begins, Ends, Goes, GoesBy, IsDone};

use crate::front::look;
use crate::heads::behind;
use crate::variant::Variant;
use std::alloc::{AllocError, Global};

/// The length of a file header behind its magic number, in bytes.
const REST_OF_HEADER: usize = 20;

/// Turns a capture of a variant into a plain capture, piece by piece: it leaves out the further bytes of each head.
///
/// Bytes that can't be a head are corrupt. They are kept up to a place where two packets of the variant follow each other, which is a
/// guess. So is the end of a packet whose stored length leads to no head.
#[derive(Debug, Drop)]
pub struct Plain {
    /// The variant.
    variant: Variant,
    /// The bytes that are not written yet.
    held: Vec<u8>,
    /// The number of bytes before the next head.
    left: usize,
}

impl Plain {
    /// Returns the state behind the magic number of the capture. The rest of the file header stays.
    pub fn new(alloc: Global, variant: Variant) -> Plain
        ensures { Begins variant result }
    {
        Plain {
            variant,
            held: Vec::new(alloc),
            left: REST_OF_HEADER,
        }
    }

    /// Takes the next piece, and appends to `room` what is known of the plain capture.
    pub fn put(&mut self, room: &mut Vec<u8>, piece: &[u8]) -> Result<(), AllocError>
        ensures { OnOk result (Goes self.old room.old.items piece.now self.new room.new.items) }
    {
        self.held.extend_from_slice(piece)?;
        self.write(room, false)
    }

    /// Appends the rest of the plain capture. No piece follows.
    pub fn finish(&mut self, room: &mut Vec<u8>) -> Result<(), AllocError>
        ensures { OnOk result (Ends self.old room.old.items room.new.items) }
    {
        self.write(room, true)?;
        room.extend_from_slice(self.held.as_slice())?;
        self.held.clear();
        Ok(())
    }

    // Appends what is known of the plain capture. If no piece follows, only the beginning of a head stays.
    fn write(&mut self, room: &mut Vec<u8>, is_all: bool) -> Result<(), AllocError>
        ensures goes { OnOk result (GoesBy is_all self.old room.old.items self.new room.new.items) }
        ensures all { OnOk result (IsTrue is_all → IsDone self.new) }
    {
        let mut passed: usize = 0;
        while passed < self.held.len() {
            let bytes = behind(self.held.as_slice(), passed);
            let Some(step) = look(&self.variant, self.left, bytes, is_all) else {
                drop_front(&mut self.held, passed);
                return Ok(());
            };
            room.extend_from_slice(&bytes[..step.written])?;
            self.left = step.left;
            passed += step.passed;
        }
        drop_front(&mut self.held, passed);
        Ok(())
    }
}

// Removes this many bytes from the front.
fn drop_front(room: &mut Vec<u8>, len: usize)
    requires { len ≤ length room.old.items }
    ensures { room.new.items ≡ drop len room.old.items }
{
    let end = room.len();
    room.copy_within(len..end, 0);
    room.truncate(end - len);
}
