//! Items that a run takes from a reader, for any format.

ghost use Rattle.pcap_items.specs.Takes.{GivesItems};

use std::alloc::{AllocError, Global};

/// Takes items from a reader until there are `most`, or until the reader returns None or an error. Returns the items, and
/// the error if there is one. It makes room for each item before it calls the reader.
pub fn read_items<T: Drop, E: From<AllocError> + Drop, R: Iterator<Item = Result<T, E>>>(
    alloc: Global,
    reader: &mut R,
    most: u64,
) -> (Vec<T>, Option<E>)
    requires { R.can_next reader.old }
    ensures { GivesItems R.next_gives E.from_gives reader.old reader.new most result.0.items result.1 }
{
    let mut items = Vec::new(alloc);
    for turn in 0..most {
        if let Err(e) = items.reserve(1) {
            return (items, Some(E::from(e)));
        }
        match reader.next() {
            None => return (items, None),
            Some(Ok(item)) => items.push_reserved(item),
            Some(Err(e)) => return (items, Some(e)),
        }
    }
    (items, None)
}
