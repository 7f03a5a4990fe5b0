//! Reports on the packets and blocks of a damaged capture.

ghost use Rattle.std.specs.Prelude.{◌≡◌};
ghost use Rattle.pcapfile_rows.specs.Changes.{is_guessed, is_left_out};

use crate::describing::Undescribed;

/// What the reader reports about a packet or a block that it returns.
#[derive(Clone, Copy)]
pub enum Change {
    /// The length of the next packet or block is changed.
    Length {
        /// The length that it had.
        stated: u32,
        /// The length that it has now.
        length: u32,
        /// Whether the new length is a guess.
        is_guess: bool,
    },
    /// The next packet is a guess: it is one of a short run behind corrupt bytes.
    Found,
    /// The next packet is a guess: it has no data, and the capture is damaged, or all numbers of its head are 0.
    Empty,
    /// The packet in the next block is a guess: no packet has its original length.
    Oversized,
    /// The last packet, of this many bytes, is a guess: nothing confirms where it ends.
    Unconfirmed(usize),
    /// The end of the next block is missing, and is written again: of its bytes so many are there, and so many are written.
    CutOff {
        /// The number of bytes that are there.
        present: usize,
        /// The number of bytes that are written.
        whole: usize,
    },
    /// The interface of the next packet is not described.
    Undescribed(Undescribed),
}

/// The last report on a packet or block, and how many there were so far.
#[derive(Clone, Copy)]
pub struct Changed {
    /// The number of reports.
    pub count: u64,
    /// The last of them.
    pub last: Option<Change>,
}

impl Change {
    /// Returns whether the packet or block is kept or changed by a guess.
    pub fn is_guess(&self) -> bool
        ensures { result ≡ is_guessed self.now }
    {
        match *self {
            Change::Length { is_guess, .. } => is_guess,
            Change::CutOff { .. } => false,
            Change::Found | Change::Empty | Change::Oversized | Change::Unconfirmed(_) => true,
            Change::Undescribed(undescribed) => undescribed.fate.is_guess(),
        }
    }

    /// Returns whether the packet or block is left out.
    pub fn is_left_out(&self) -> bool
        ensures { result ≡ is_left_out self.now }
    {
        match *self {
            Change::Undescribed(undescribed) => undescribed.fate.is_left_out(),
            _ => false,
        }
    }
}
