//! The version of the library.

ghost use Rattle.std.specs.Prelude.{◌≡◌};

/// Two digits for each part of the version that stands first in CHANGELOG.md.
const VERSION: u32 = 100;

/// Answers the version.
#[unsafe(no_mangle)]
pub extern "C" fn ctrie_version() -> u32
    ensures { result ≡ 100 }
{
    VERSION
}
