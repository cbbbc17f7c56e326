//! Versions.

ghost use Rattle.std.specs.Prelude.{◌≡◌};

use c_calls::version;

/// Returns the version: major, minor and patch in a byte each, the last the lowest. The program prints the same by `--version`.
#[unsafe(no_mangle)]
pub extern "C" fn feddurzai_version() -> u32
    ensures { result ≡ 0x000200 }
{
    version::version()
}

/// Returns the number of the interface. It rises when a struct, a number or a call of it changes.
#[unsafe(no_mangle)]
pub extern "C" fn feddurzai_interface() -> u32
    ensures { result ≡ 12 }
{
    version::interface()
}
