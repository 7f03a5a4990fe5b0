//! A slice whose bytes are shown on request.

ghost use Rattle.std.specs.Prelude.{◌≡◌, ◌≤◌, ◌+◌, ◌-◌, ◌↔◌, [], ◌∷◌, ◌++◌, length, take, drop, min, IsTrue};

use crate::run::requests::Requests;

/// A slice that shows its bytes on request. Contracts see its bytes, how many of them were shown, and all requests.
///
/// It models any source that returns bytes on request. If the caller requests exactly the bytes that the parser is missing,
/// the format alone determines the requests.
#[derive(Drop)]
pub struct Window<'a> {
    bytes: &'a [u8],
    shown: usize,
    requests: Requests,
    ghost within: { shown ≤ length bytes.now },
}

impl<'a> Window<'a> {
    ghost use Rattle.pcap_items.specs.Window.{bytes_of, shown_of, requests_made};

    /// Returns a window over these bytes that has shown none of them.
    pub fn new(bytes: &'a [u8]) -> Window<'a>
        ensures bytes { bytes_of result ≡ bytes.now }
        ensures shown { shown_of result ≡ 0 }
        ensures requests { requests_made result ≡ [] }
    {
        Window {
            bytes,
            shown: 0,
            requests: Requests::new(),
        }
    }

    /// Shows `n` more bytes, or all that are left if these are fewer. Returns how many bytes it showed.
    pub fn ask(&mut self, n: usize) -> usize
        ensures count { result ≡ min n (length (bytes_of self.old) - shown_of self.old) }
        ensures shown { shown_of self.new ≡ shown_of self.old + result }
        ensures bytes { bytes_of self.new ≡ bytes_of self.old }
        ensures requests { requests_made self.new ≡ requests_made self.old ++ n ∷ [] }
    {
        let count = n.min(self.bytes.len() - self.shown);
        self.shown += count;
        self.requests.push(n);
        count
    }

    /// Returns all bytes that were shown so far.
    pub fn seen(&self) -> &'a [u8]
        ensures seen { result.now ≡ take (shown_of self.now) (bytes_of self.now) }
        ensures within { shown_of self.now ≤ length (bytes_of self.now) }
    {
        &self.bytes[..self.shown]
    }

    /// Returns the bytes that were shown after the first `start`.
    pub fn seen_after(&self, start: usize) -> &'a [u8]
        requires { start ≤ shown_of self.now }
        ensures { result.now ≡ drop start (take (shown_of self.now) (bytes_of self.now)) }
    {
        self.seen().split_at(start).1
    }

    /// Returns whether no byte is left to show.
    pub fn is_done(&self) -> bool
        ensures { IsTrue result ↔ (shown_of self.now ≡ length (bytes_of self.now)) }
    {
        self.shown == self.bytes.len()
    }
}
