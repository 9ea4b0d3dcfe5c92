// The version of what is linked.
ghost use Rattle.std.specs.Prelude.{◌≡◌};
ghost use Rattle.morskebab.specs.Version.{version_of};

// 10,000 x major + 100 x minor + patch.
pub fn mkb_version() -> u32
    ensures { result ≡ version_of 3 0 0 }
{
    30_000
}
