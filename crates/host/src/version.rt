// The version of the protocol that a caller asks for.
ghost use Rattle.std.specs.Prelude.{◌≡◌};
ghost use Rattle.host.specs.Version.{version_of};

use message::version::Version;

pub fn version_of(number: u32) -> Version
    ensures { result ≡ version_of number }
{
    if number == 0 {
        Version::Rfc6810
    } else {
        Version::Rfc8210
    }
}
