//! The requests that a window has met, for contracts only.

ghost use Rattle.std.specs.Prelude.{◌≡◌, [], ◌∷◌, ◌++◌};
ghost use Rattle.pcap_items.specs.Requests.{all_requests};

use std::snapshot::Snapshot;

/// The last request to a window, and those before it. No such value is kept when the program runs.
#[derive(Drop)]
pub enum Request {
    /// There was no request.
    Nothing,
    /// These requests, followed by one for this many bytes.
    After(Snapshot<Request>, usize),
}

/// All requests so far, as contracts see them. The value takes no memory.
#[derive(Drop)]
pub struct Requests {
    last: Snapshot<Request>,
}

impl Requests {
    /// Returns the empty list of requests.
    pub fn new() -> Requests
        ensures { all_requests result ≡ [] }
    {
        Requests {
            last: Snapshot::of(&Request::Nothing),
        }
    }

    /// Appends a request for `n` bytes.
    pub fn push(&mut self, n: usize)
        ensures { all_requests self.new ≡ all_requests self.old ++ n ∷ [] }
    {
        let before = std::mem::replace(&mut self.last, Snapshot::of(&Request::Nothing));
        self.last = Snapshot::of(&Request::After(before, n));
    }
}
