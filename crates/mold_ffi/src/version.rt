//! The version of the library. The program `mold` has the same.

ghost use Rattle.std.specs.Prelude.{◌≡◌};
ghost use Rattle.mold_ffi.specs.declared.version.TheConstants as versions;

/// Version 0.3.0 as a number: the major version times 1,000,000, plus the minor version times 1,000, plus the patch
/// number.
pub const LIBRARY_VERSION: u32 = 3_000;

/// Returns the version of the library, which is that of its header.
#[unsafe(no_mangle)]
pub extern "C" fn mold_library_version() -> u32
    ensures { result ≡ versions.LIBRARY_VERSION }
{
    LIBRARY_VERSION
}
