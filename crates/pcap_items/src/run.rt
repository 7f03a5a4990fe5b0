//! Runs over items: in slices, in bytes that a window shows on request, in pieces and from readers.

mod exact;
mod found;
mod items;
mod pieces;
mod reads;
mod requests;
mod window;

pub use exact::show_items;
pub use found::{Found, found_in};
pub use items::{Ended, ItemRun, Items, parse_items};
pub use pieces::{PieceParser, Pieces, feed_pieces, pieces_fit};
pub use reads::read_items;
pub use requests::{Request, Requests};
pub use window::Window;
