// The library's version, for C.
ghost use Rattle.std.specs.Prelude.{◌≡◌};
ghost use Rattle.capi.specs.Versions.{version};

// Which version of the library this is: major * 1,000,000 + minor * 1,000 + patch. It is no number of refusal.
#[unsafe(no_mangle)]
pub extern "C" fn ph_version() -> u32
    ensures { result ≡ version }
{
    2_000
}
