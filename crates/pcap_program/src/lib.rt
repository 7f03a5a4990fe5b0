//! What the programs share: how a run ends, lines of text, and streams that repeat interrupted calls.
#![tactic(auto)]

mod exit;
mod line;
mod output;
mod uninterrupted;

pub use exit::Exit;
pub use line::{ROOM, put_byte, put_nine_digits, put_number, put_word};
pub use output::put_line;
pub use uninterrupted::Uninterrupted;
