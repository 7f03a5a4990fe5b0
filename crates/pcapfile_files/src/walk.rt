//! Counting packets while bytes are read.

ghost use Rattle.std.specs.Prelude.{◌≤◌};

use pcap_core::Endianness;

/// The size of the header of a packet record, in bytes. Headers of blocks and captures are read up to `FRONT`.
const HEAD: usize = 16;

/// The number of bytes read from the header of a block, or from the beginning of a capture.
const FRONT: usize = 12;

/// The number of bytes of a classic capture's header after these.
const REST_OF_HEADER: u64 = 12;

/// The greatest length of a packet or block in bytes. A greater length is taken for corrupt.
const LONGEST: u32 = 16_777_216;

const SECTION: u32 = 0x0A0D_0D0A;

const ORDER_OF_BYTES: u32 = 0x1A2B_3C4D;

const MICROSECONDS: u32 = 0xA1B2_C3D4;

const NANOSECONDS: u32 = 0xA1B2_3C4D;

/// The item at the next header.
#[derive(Clone, Copy)]
enum Next {
    /// The beginning of a capture.
    Beginning,
    /// A packet of a classic capture.
    Packet(Endianness),
    /// A block.
    Block(Endianness),
    /// Corrupt bytes.
    Nothing,
}

/// Counts packets in the bytes of a capture, piece by piece. It stops counting at corrupt bytes.
#[derive(Clone, Copy)]
pub(crate) struct Walk {
    next: Next,
    /// The bytes of the next header that have been read.
    head: [u8; HEAD],
    /// The number of these bytes.
    held: usize,
    /// The number of bytes before the next header.
    skipped: u64,
}

/// Returns whether these first bytes of a file match the magic number of a capture, as far as they go.
pub(crate) fn begins_capture(bytes: &[u8]) -> bool {
    let front = &bytes[..bytes.len().min(4)];
    let magics = [
        SECTION.to_be_bytes(),
        MICROSECONDS.to_be_bytes(),
        MICROSECONDS.to_le_bytes(),
        NANOSECONDS.to_be_bytes(),
        NANOSECONDS.to_le_bytes(),
    ];
    !front.is_empty() && magics.iter().any(|magic| magic.starts_with(front))
}

impl Walk {
    /// Returns a walk at the beginning of a capture.
    pub(crate) fn new() -> Walk {
        Walk {
            next: Next::Beginning,
            head: [0; HEAD],
            held: 0,
            skipped: 0,
        }
    }

    /// Walks over the next bytes, and returns the number of packets that begin there.
    pub(crate) fn pass(&mut self, bytes: &[u8]) -> u64 {
        let mut packets: u64 = 0;
        let mut left = bytes;
        for _ in 0..=bytes.len() {
            if left.is_empty() {
                break;
            }
            let (is_packet, rest) = self.step(left);
            packets = packets.saturating_add(u64::from(is_packet));
            left = rest;
        }
        packets
    }

    /// Returns whether corrupt bytes stopped it.
    pub(crate) fn is_lost(&self) -> bool {
        matches!(self.next, Next::Nothing)
    }

    // Skips bytes or reads bytes of a header. Returns whether that completes the header of a packet, and the bytes after it.
    fn step<'a>(&mut self, bytes: &'a [u8]) -> (bool, &'a [u8]) {
        if self.skipped > 0 {
            let len = bytes
                .len()
                .min(usize::try_from(self.skipped).unwrap_or(usize::MAX));
            self.skipped = self.skipped.saturating_sub(len as u64);
            return (false, &bytes[len..]);
        }
        let missing = self.len_of_head().saturating_sub(self.held);
        let (came, rest) = bytes.split_at(missing.min(bytes.len()));
        self.hold(came);
        if came.len() < missing {
            return (false, rest);
        }
        self.held = 0;
        (self.read_head(), rest)
    }

    fn len_of_head(&self) -> usize {
        match self.next {
            Next::Packet(_) => HEAD,
            _ => FRONT,
        }
    }

    fn hold(&mut self, came: &[u8]) {
        for (to, from) in self.head.iter_mut().skip(self.held).zip(came) {
            *to = *from;
        }
        self.held = self.held.saturating_add(came.len());
    }

    // Reads the complete header, and returns whether it belongs to a packet.
    fn read_head(&mut self) -> bool {
        match self.next {
            Next::Beginning => self.begin(),
            Next::Packet(order) => self.read_packet(order),
            Next::Block(order) => self.read_block(order),
            Next::Nothing => self.give_up(),
        }
    }

    fn begin(&mut self) -> bool {
        if self.number(0, Endianness::Big) == SECTION {
            return self.read_block(Endianness::Big);
        }
        for order in [Endianness::Big, Endianness::Little] {
            if let MICROSECONDS | NANOSECONDS = self.number(0, order) {
                self.next = Next::Packet(order);
                self.skipped = REST_OF_HEADER;
                return false;
            }
        }
        self.give_up()
    }

    fn read_packet(&mut self, order: Endianness) -> bool {
        let stored = self.number(8, order);
        if stored > LONGEST {
            return self.give_up();
        }
        self.skipped = u64::from(stored);
        true
    }

    fn read_block(&mut self, before: Endianness) -> bool {
        let mut order = before;
        if self.number(0, Endianness::Big) == SECTION {
            order = match self.number(8, Endianness::Big) {
                ORDER_OF_BYTES => Endianness::Big,
                _ => Endianness::Little,
            };
            if self.number(8, order) != ORDER_OF_BYTES {
                return self.give_up();
            }
        }
        let (type_, len) = (self.number(0, order), self.number(4, order));
        if len % 4 != 0 || len < 12 {
            return self.give_up();
        }
        self.next = Next::Block(order);
        self.skipped = u64::from(len.saturating_sub(12));
        matches!(type_, 2 | 3 | 6)
    }

    // Stops counting.
    fn give_up(&mut self) -> bool {
        self.next = Next::Nothing;
        self.skipped = u64::MAX;
        false
    }

    // Returns the number at this offset in the header.
    fn number(&self, at: usize, order: Endianness) -> u32
        requires { at ≤ 12 }
    {
        let bytes = [
            self.head[at],
            self.head[at + 1],
            self.head[at + 2],
            self.head[at + 3],
        ];
        match order {
            Endianness::Big => u32::from_be_bytes(bytes),
            Endianness::Little => u32::from_le_bytes(bytes),
        }
    }
}
