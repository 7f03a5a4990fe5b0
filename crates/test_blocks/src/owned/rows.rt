//! Rows: bytes as hexadecimal digits, and the text of their value.

use pcap_core::ResultParsing;
use std::alloc::Global;
use std::fmt::Debug;
use std::test::Fail;
use test_support::rows::{bytes, same};

// A value that outlives the bytes it was read from.
pub(crate) trait Owned: Clone + Debug {
    // Returns the value of these bytes, owned by its own `into_owned`.
    fn owned(alloc: Global, body: &[u8]) -> ResultParsing<Self>;
}

// Such a value with texts that can be checked. Its `Debug` text shows whether bytes are owned, but not whether texts are.
pub(crate) trait HasTexts: Owned {
    // Returns whether the checked texts are owned.
    fn owns_texts(&self) -> bool;
}

// Returns the value of these digits after those of a head. The bytes that it was read from are freed before it returns.
fn kept<T: Owned>(alloc: Global, head: &str, digits: &str) -> Result<T, Fail> {
    let digits = format!(in alloc; "{head} {digits}")?;
    let body = bytes(alloc, digits.as_str())?;
    Ok(T::owned(alloc, body.as_slice())?)
}

// Checks that the values of rows, and their clones, give the texts of the rows. Each row is the digits after a head, and a text.
pub(crate) fn compare<T: Owned>(
    alloc: Global,
    head: &str,
    rows: &[(&str, &str)],
) -> Result<(), Fail> {
    for (digits, text) in rows {
        let value = kept::<T>(alloc, head, *digits)?;
        tell(alloc, &value, *text)?;
    }
    Ok(())
}

// Does the same, and checks that they own their texts.
pub(crate) fn compare_with_texts<T: HasTexts>(
    alloc: Global,
    head: &str,
    rows: &[(&str, &str)],
) -> Result<(), Fail> {
    for (digits, text) in rows {
        let value = kept::<T>(alloc, head, *digits)?;
        tell(alloc, &value, *text)?;
        if !value.owns_texts() {
            return Err(Fail::new(format_args!("{text} borrows a text")));
        }
    }
    Ok(())
}

// Checks that a value and its clone give this text; otherwise it returns a failure with what they give.
pub(crate) fn tell<T: Clone + Debug>(alloc: Global, value: &T, text: &str) -> Result<(), Fail> {
    let shown = text_with_clone(alloc, value)?;
    same(shown.as_str(), text)
}

// Returns the text of a value, and that of its clone if they differ. The text distinguishes owned bytes from borrowed ones, but not owned
// texts from borrowed ones.
pub(crate) fn text_with_clone<T: Clone + Debug>(alloc: Global, value: &T) -> Result<String, Fail> {
    let text = format!(in alloc; "{value:?}")?;
    let clone = value.clone()?;
    let text_of_clone = format!(in alloc; "{clone:?}")?;
    if text_of_clone.as_str() == text.as_str() {
        Ok(text)
    } else {
        Ok(format!(in alloc; "{text} has the clone {text_of_clone}")?)
    }
}
