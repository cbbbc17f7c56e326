//! Versions.

ghost use Rattle.std.specs.Prelude.{◌≡◌};

/// Returns the version, one byte each for major, minor and patch; patch is the lowest byte. `--version` of the program prints the same version.
pub fn version() -> u32
    ensures { result ≡ 0x000200 }
{
    0x00_02_00
}

/// Returns the interface number of the library for C. It rises when a struct, a number or a call changes.
pub fn interface() -> u32
    ensures { result ≡ 12 }
{
    12
}
