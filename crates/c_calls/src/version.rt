// The version of the library.
ghost use Rattle.std.specs.Prelude.{◌≡◌};

// The header's TELUDDRU_VERSION_NUMBER, of 0.1.0.
pub fn teluddru_version() -> u32
    ensures { result ≡ 100 }
{
    100
}
