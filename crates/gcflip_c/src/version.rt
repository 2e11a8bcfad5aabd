//! The version of the libraries for C.

ghost use Rattle.std.specs.Prelude.{◌≡◌};
ghost use Rattle.gcflip_c.specs.Version.{version};

/// The version: 10000 times the major number, 100 times the minor one, and the patch.
const VERSION: u32 = 200;

/// Returns the version of the library.
#[unsafe(no_mangle)]
pub extern "C" fn gcflip_version() -> u32
    ensures { result ≡ version }
{
    VERSION
}
