//! The library's version.

ghost use Rattle.std.specs.Prelude.{◌≡◌, codes};

use pcapfile_values::shown::PcapfileBytes;

/// Sets `version` to the version of the library, in ASCII: numbers with points between them.
#[unsafe(no_mangle)]
pub extern "C" fn pcapfile_version(version: &mut PcapfileBytes<'static>)
    ensures { version.new.bytes.now ≡ codes "0.2.0" }
{
    version.bytes = "0.2.0".as_bytes();
}
