//! Untrusted text, escaped for display.

use std::fmt;
use std::fmt::Write;

/// The marker at the end of a name that was not UTF-8, in which each invalid byte is written as `\x` and two digits. No file name
/// contains it, so such a name is never mistaken for another one.
pub const NOT_UTF8: char = '\0';

/// An untrusted name or text that is displayed with escapes for characters that would act on a terminal or break a line.
#[derive(Clone, Copy)]
pub struct Shown<'a>(pub &'a str);

/// A line of JSON that is displayed with JSON escapes for the same characters.
#[derive(Clone, Copy)]
pub struct ShownJson<'a>(pub &'a str);

// Returns whether a character is displayed as an escape: control characters, line and paragraph separators, marks that change
// the direction of text, and the byte order mark.
fn is_escaped(c: char) -> bool {
    c.is_control()
        || matches!(
            c,
            '\u{61c}' | '\u{200e}' | '\u{200f}' | '\u{2028}'..='\u{202e}' | '\u{2066}'..='\u{2069}' | '\u{feff}'
        )
}

impl fmt::Display for Shown<'_> {
    fn fmt<W: fmt::Write>(&self, f: &mut fmt::Formatter<W>) -> fmt::Result {
        for c in self.0.chars() {
            if c == NOT_UTF8 {
                continue;
            }
            if is_escaped(c) {
                let escape = c.escape_unicode();
                write!(f, "{escape}")?;
            } else {
                f.write_char(c)?;
            }
        }
        Ok(())
    }
}

impl fmt::Display for ShownJson<'_> {
    fn fmt<W: fmt::Write>(&self, f: &mut fmt::Formatter<W>) -> fmt::Result {
        for c in self.0.chars() {
            if is_escaped(c) {
                let number = u32::from(c);
                write!(f, "\\u{number:04x}")?;
            } else {
                f.write_char(c)?;
            }
        }
        Ok(())
    }
}
