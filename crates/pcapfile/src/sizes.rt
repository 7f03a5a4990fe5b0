//! Sizes with units, as users write them.

/// The units of a size: none for bytes, and powers of 1024 and of 1000 with the names that GNU's programs use.
const UNITS: &[(&str, u64)] = &[
    ("", 1),
    ("K", 1 << 10),
    ("M", 1 << 20),
    ("G", 1 << 30),
    ("T", 1 << 40),
    ("KB", 1_000),
    ("MB", 1_000_000),
    ("GB", 1_000_000_000),
    ("TB", 1_000_000_000_000),
];

/// Returns the number of bytes of a size: digits and a unit, as `5000`, `100K` or `2GB`. `None` if the text is no size, or the
/// size is 0 or at least 2^64.
pub(crate) fn size(text: &str) -> Option<u64> {
    let unit = text.trim_start_matches(|c: char| c.is_ascii_digit());
    let count: u64 = text.strip_suffix(unit)?.parse().ok()?;
    let (_, factor) = UNITS.iter().find(|(name, _)| *name == unit)?;
    count.checked_mul(*factor).filter(|size| *size > 0)
}
