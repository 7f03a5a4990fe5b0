//! Laws of line ends. Each contract is the law.

ghost use Rattle.std.specs.Prelude.{◌≡◌, List, ℕ};
ghost use Rattle.pcap_altered.specs.LineEnds.{transferred, undone};

/// Undoing a text-mode transfer gives back the bytes that were transferred.
pub fn undoing_is_exact()
    ensures { (s : List ℕ) → undone (transferred s) ≡ s }
{}
