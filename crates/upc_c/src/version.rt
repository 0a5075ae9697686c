//! The version of the library.

ghost use Rattle.std.specs.Prelude.{◌≡◌};

/// Returns the version of the library: that of `include/upc.h` with which it was made.
#[unsafe(no_mangle)]
pub extern "C" fn upc_version() -> u32
    ensures { result ≡ 2 }
{
    2
}
