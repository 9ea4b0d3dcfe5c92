// The version of what is linked. What each answers is said at the function of its name.
ghost use Rattle.std.specs.Prelude.{◌≡◌};
ghost use Rattle.morskebab.specs.Version.{version_of};

#[unsafe(no_mangle)]
pub extern "C" fn mkb_version() -> u32
    ensures { result ≡ version_of 3 0 0 }
{
    morskebab::mkb_version()
}
