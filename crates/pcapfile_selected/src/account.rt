//! What a command reports on a capture of which it reads the selected packets.

use crate::source::Exceptions;
use pcapfile_cut::Outcome;
use std::alloc::{AllocError, Global};
use std::cell::Cell;
use std::collections::VecDeque;

/// How the selected packets of a capture were read. The capture's stream writes it, and the command that reads the stream reports it.
#[derive(Drop)]
pub struct Account {
    exceptions: Cell<Exceptions>,
    /// How the selection ended, if the capture is truncated or malformed there.
    fault: Cell<Option<Outcome>>,
    /// The byte after which the selection counts bytes.
    place: Cell<u64>,
    /// The numbers of packets that were read and not taken. `None` if nobody takes them.
    numbers: Cell<Option<VecDeque<u64>>>,
}

impl Account {
    /// Returns the account of a capture of which nothing has been read.
    pub fn new() -> Account {
        Account {
            exceptions: Cell::new(Exceptions::default()),
            fault: Cell::new(None),
            place: Cell::new(0),
            numbers: Cell::new(None),
        }
    }

    /// Begins to keep the numbers of the packets that are read. The caller takes each of them.
    pub fn keep_numbers(&self, alloc: Global) {
        self.numbers.set(Some(VecDeque::new(alloc)));
    }

    /// Returns the number that the next of the read packets has in its capture.
    pub fn take_number(&self) -> Option<u64> {
        let mut numbers = self.numbers.take()?;
        let number = numbers.pop_front();
        self.numbers.set(Some(numbers));
        number
    }

    /// Returns how many packets were left out or treated otherwise than the user asked.
    pub fn exceptions(&self) -> Exceptions {
        self.exceptions.get()
    }

    /// Returns how the selection ended if the capture is truncated or malformed there, and the byte after which it counts bytes. A second
    /// call returns None.
    pub fn take_fault(&self) -> Option<(u64, Outcome)> {
        let outcome = self.fault.take()?;
        Some((self.place.get(), outcome))
    }

    /// Notes the byte after which the selection counts bytes.
    pub(crate) fn begin(&self, place: u64) {
        self.place.set(place);
    }

    /// Notes that the packet of this number was read.
    pub(crate) fn note_number(&self, number: u64) -> Result<(), AllocError> {
        let Some(mut numbers) = self.numbers.take() else {
            return Ok(());
        };
        numbers.push_back(number)?;
        self.numbers.set(Some(numbers));
        Ok(())
    }

    /// Notes how many packets were left out or treated otherwise than the user asked.
    pub(crate) fn note_exceptions(&self, exceptions: Exceptions) {
        self.exceptions.set(exceptions);
    }

    /// Notes that the selection ended at a truncated or malformed item.
    pub(crate) fn note_fault(&self, outcome: Outcome) {
        self.fault.set(Some(outcome));
    }
}
