//! A buffer that is filled from a stream on request.

ghost use Rattle.std.specs.Prelude.{false, ◌≡◌, ◌<◌, ◌≤◌, ◌+◌, min, max, length, [], IfOk, IfErr, OnOk, OnErr};
ghost use Rattle.std.specs.Borrow.{sem, Lends};
ghost use Rattle.std.specs.Io.KnownBytes.{Consumes, Keeps, IsAtEnd};
ghost use Rattle.pcap_items.specs.contracts.stream.fill.Fill.{the_row as fill-row};
ghost use Rattle.pcap_items.specs.Fill.{told_of, held_of, room_of, stream_of, has_failed};
ghost use Rattle.pcap_items.specs.Format.{IsLawful};
ghost use Rattle.pcap_items.specs.Filling.{FillsHeaded, TakesHeaded};
ghost use Rattle.pcap_items.specs.Held.{held_bytes, room_of as room_held};
ghost use Rattle.pcap_items.specs.LentStreams.{fill_with};
ghost use Rattle.pcap_items.specs.Streams.{Adds, AddsFewer, TellsCause, FillGives, HasCauseToFill};

use crate::stream::{HasHead, Held, Told, fill_item, read_exactly, read_once, take_item};
use pcap_core::ResultParsing;
use std::alloc::Global;
use std::io::Read;

/// A buffer of bytes that are read from a stream on request, and held until they are dropped.
#[derive(Debug, Drop)]
pub struct Fill<T> {
    pub(crate) told: Told<T>,
    pub(crate) held: Held,
}

impl<T> Fill<T> {
    /// Returns a buffer that holds no bytes of this stream yet.
    pub fn new(alloc: Global, told: Told<T>) -> Fill<T>
        ensures told { told_of result ≡ told }
        ensures held { held_of result ≡ [] }
        ensures room { room_of result ≡ 0 }
    {
        Fill {
            told,
            held: Held::new(alloc),
        }
    }

    /// Returns the bytes that are held.
    pub fn held(&self) -> &[u8]
        ensures { result.now ≡ held_of self.now }
    {
        self.held.as_slice()
    }

    /// Drops the held bytes, and keeps their room.
    pub fn clear(&mut self)
        ensures held { held_of self.new ≡ [] }
        ensures room { room_of self.new ≡ room_of self.old }
        ensures told { told_of self.new ≡ told_of self.old }
    {
        self.held.clear();
    }

    /// Returns whether a read of the stream failed.
    pub fn failed(&self) -> bool
        ensures { result ≡ has_failed self.now }
    {
        self.told.failed()
    }

    /// Returns the stream.
    pub fn get_ref(&self) -> &T
        ensures { result.now ≡ stream_of self.now }
    {
        self.told.get_ref()
    }

    /// Returns the stream. This buffer does not get bytes that the caller reads from it directly.
    pub fn get_mut(&mut self) -> &mut T
        ensures value { result.now ≡ stream_of self.old }
        ensures* writes_back { sem 𝓛 (Lends (fill-row T.row) T.row self.entry result (fill_with self.old)) }
    {
        self.told.get_mut()
    }

    /// Returns the stream. Held bytes are dropped.
    pub fn into_inner(self) -> T
        ensures { result ≡ stream_of self }
    {
        self.told.into_inner()
    }
}

impl<T: Read> Fill<T> {
    /// Makes one read of the stream, with room for n bytes but at most 65536. Returns how many bytes came, which is 0 at the
    /// end of the stream. Returns `OutOfMemory` if there is no room for them, and `IoError` if the read failed. After an
    /// error, the held bytes are unchanged.
    pub fn step(&mut self, n: usize) -> ResultParsing<usize>
        requires { 0 < n }
        ensures added { IfOk result (Adds (held_of self.old) (held_of self.new) (T.remaining (stream_of self.old)) (T.remaining (stream_of self.new))) }
        ensures most { IfOk result (λ k. k ≤ min n 65536) }
        ensures end { IfOk result (λ k. k ≡ 0 → IsAtEnd (T.remaining (stream_of self.new))) }
        ensures told { OnOk result (has_failed self.new ≡ has_failed self.old) }
        ensures held { OnErr result (held_of self.new ≡ held_of self.old) }
        ensures kept { OnErr result (Keeps (T.remaining (stream_of self.old)) (T.remaining (stream_of self.new))) }
        ensures cause { IfErr result (TellsCause (has_failed self.old) (has_failed self.new)) }
        ensures room { room_of self.new ≤ max (room_of self.old) (length (held_of self.old) + min n 65536) }
    {
        read_once(
            &mut self.told.inner,
            &mut self.told.has_failed,
            &mut self.held,
            n,
        )
    }

    /// Appends n bytes of the stream to the held bytes. `Ok(false)` means that nothing was held and nothing is left. Returns
    /// `OutOfMemory` if there is no room, and `IoError` if a read failed or the stream ended before n bytes. Bytes that came
    /// before the error are held too.
    pub fn more(&mut self, n: usize) -> ResultParsing<bool>
        requires { 0 < n }
        ensures added { IfOk result (FillGives n (held_of self.old) (held_of self.new) (T.remaining (stream_of self.old)) (T.remaining (stream_of self.new))) }
        ensures told { OnOk result (has_failed self.new ≡ has_failed self.old) }
        ensures part { OnErr result (AddsFewer n (held_of self.old) (held_of self.new) (T.remaining (stream_of self.old)) (T.remaining (stream_of self.new))) }
        ensures cause { IfErr result (HasCauseToFill n (held_of self.old) (T.remaining (stream_of self.old)) (has_failed self.old) (has_failed self.new)) }
        ensures room { room_of self.new ≤ max (room_of self.old) (length (held_of self.old) + n) }
        ensures ahead { room_of self.new ≤ max (room_of self.old) (length (held_of self.new) + 65536) }
    {
        read_exactly(
            &mut self.told.inner,
            &mut self.told.has_failed,
            &mut self.held,
            n,
        )
    }

    /// Fills the buffer with the next item: its head, and then as many bytes as the head states. Returns `None` exactly at
    /// the end of the stream. After an error, the bytes that came before it are held.
    #[inline(always)]
    pub fn item<H: HasHead>(&mut self, item: &H) -> ResultParsing<Option<H::Head>>
        requires lawful { IsLawful (H.format item.now) }
        requires between { held_of self.old ≡ [] }
        requires unfailed { has_failed self.old ≡ false }
        ensures fills { FillsHeaded ((H.format item.now).says (H.state item.now)) (H.knows item.now) ((H.format item.now).head (H.state item.now))
            (T.remaining (stream_of self.old)) (T.remaining (stream_of self.new)) (held_of self.new) (has_failed self.new) result }
        ensures part { OnErr result (Consumes (T.remaining (stream_of self.old)) (T.remaining (stream_of self.new)) (held_of self.new)) }
        ensures ahead { room_of self.new ≤ max (room_of self.old) (length (held_of self.new) + 65536) }
    {
        fill_item(
            item,
            &mut self.told.inner,
            &mut self.told.has_failed,
            &mut self.held,
        )
    }

    /// Takes the next item: its head, which `apart` holds meanwhile, and a new vector of as many bytes as the head states.
    /// Returns `None` exactly at the end of the stream. The bytes held by this buffer are unchanged.
    #[inline(always)]
    pub fn take<H: HasHead>(
        &mut self,
        alloc: Global,
        item: &H,
        apart: &mut Held,
    ) -> ResultParsing<Option<(H::Head, Vec<u8>)>>
        requires lawful { IsLawful (H.format item.now) }
        requires between { held_bytes apart.old ≡ [] }
        requires unfailed { has_failed self.old ≡ false }
        ensures takes { TakesHeaded ((H.format item.now).says (H.state item.now)) (H.knows item.now) ((H.format item.now).head (H.state item.now))
            (λ body. body.items) (T.remaining (stream_of self.old)) (T.remaining (stream_of self.new)) (has_failed self.new) result }
        ensures between { OnOk result (held_bytes apart.new ≡ []) }
        ensures room { room_held apart.new ≤ max (room_held apart.old) ((H.format item.now).head (H.state item.now)) }
        ensures held { held_of self.new ≡ held_of self.old }
        ensures kept { room_of self.new ≡ room_of self.old }
    {
        take_item(
            alloc,
            item,
            &mut self.told.inner,
            &mut self.told.has_failed,
            apart,
        )
    }
}
