//! Splits the number of a link type in the header of a classic capture.

ghost use Rattle.std.specs.Prelude.{◌≡◌, ◌%◌, ◌^◌, ℕ, Some, None, pos, negsuc};
ghost use Rattle.pcap_core.specs.LinkField.{fcs_bytes};

use pcap_core::LinkField;

/// Returns the link type in the number of a classic header: its low 16 bits.
#[unsafe(no_mangle)]
pub extern "C" fn pcapfile_link_type(link: u32) -> u32
    ensures { result ≡ link % 2 ^ 16 }
{
    u32::from(LinkField::from(link).link)
}

/// Returns the length in bytes of the frame check sequence that the number of a link type in a classic header declares. -1 if it declares
/// none.
#[unsafe(no_mangle)]
pub extern "C" fn pcapfile_fcs_len(link: u32) -> i32
    ensures said { (len : ℕ) → fcs_bytes link ≡ Some len → result ≡ pos len }
    ensures unsaid { fcs_bytes link ≡ None → result ≡ negsuc 0 }
{
    match LinkField::from(link).fcs_len {
        Some(len) => i32::from(len),
        None => -1,
    }
}
