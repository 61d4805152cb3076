// Which version of the calls this library has.
ghost use Rattle.std.specs.Prelude.{◌≡◌};
ghost use Rattle.stazzumpi.specs.Version.{version};

// Major, minor and patch, 0.3.0.
const VERSION: u64 = 0x000300;

#[unsafe(no_mangle)]
pub extern "C" fn stazzumpi_version() -> u64
    ensures { result ≡ version }
{
    VERSION
}
