//! How the streams of a run behave, as a row says it.

use std::io::ErrorKind;

/// How the input and output of a run behave, and how much it may write.
#[derive(Clone, Copy)]
pub(crate) struct Streams {
    /// The size of the input's buffer in bytes. 0 stands for several sizes.
    pub room: usize,
    /// The most bytes of one read.
    pub step: usize,
    /// The number of the first read that fails, counted from 1, or 0.
    pub fails_at: usize,
    /// How many reads fail, from that one on.
    pub fails_for: usize,
    /// The kind of these failures, or of that of the output.
    pub kind: ErrorKind,
    /// Whether interrupted reads are repeated.
    pub repeats: bool,
    /// How many bytes the output takes in all.
    pub space: usize,
    /// The number of the call of the output that is interrupted, or takes nothing if the kind is `WriteZero`. If this isn't 0, the output
    /// takes at most ten bytes in a call.
    pub halts_at: u64,
    /// Whether the output has a buffer, whose bytes aren't out before it is flushed.
    pub is_buffered: bool,
    /// The most lines or packets.
    pub most: u64,
}

impl Streams {
    /// Returns the streams that these words describe, or None if one of them is unknown. Without words no call fails.
    pub fn of(words: &str) -> Option<Streams> {
        let mut streams = Streams {
            room: 0,
            step: 1000,
            fails_at: 0,
            fails_for: 1,
            kind: ErrorKind::Other,
            repeats: false,
            space: usize::MAX,
            halts_at: 0,
            is_buffered: false,
            most: 4_294_967_295,
        };
        for word in words.trim().split(' ') {
            if !streams.set(word) {
                return None;
            }
        }
        Some(streams)
    }

    // Sets what this word says, and returns whether it is known.
    fn set(&mut self, word: &str) -> bool {
        let (name, number) = word.split_once('=').unwrap_or((word, "0"));
        let Ok(number) = number.parse::<usize>() else {
            return false;
        };
        match name {
            "" => {}
            "room" => self.room = number,
            "step" => self.step = number,
            "fails_at" => self.fails_at = number,
            "fails_for" => self.fails_for = number,
            "repeated" => self.repeats = true,
            "space" => self.space = number,
            "halts_at" => self.halts_at = number as u64,
            "buffered" => self.is_buffered = true,
            "most" => self.most = number as u64,
            _ => match kind_of(name) {
                Some(kind) => self.kind = kind,
                None => return false,
            },
        }
        true
    }
}

/// Returns the kind of errors with this name.
pub(crate) fn kind_of(name: &str) -> Option<ErrorKind> {
    Some(match name {
        "BrokenPipe" => ErrorKind::BrokenPipe,
        "Interrupted" => ErrorKind::Interrupted,
        "Other" => ErrorKind::Other,
        "TimedOut" => ErrorKind::TimedOut,
        "UnexpectedEof" => ErrorKind::UnexpectedEof,
        "WouldBlock" => ErrorKind::WouldBlock,
        "WriteZero" => ErrorKind::WriteZero,
        _ => return None,
    })
}
