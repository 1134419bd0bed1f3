// The versions of the protocol, and what they differ in.
ghost use Rattle.std.specs.Prelude.{◌≡◌};
ghost use Rattle.message.specs.Version.{version_number, speaks, end_length};

#[derive(Clone, Copy)]
pub enum Version {
    Rfc6810,
    Rfc8210,
}

// The byte that each message starts with.
// Kept: a name that the specs share.
pub fn number_of(version: Version) -> u8
    ensures { result ≡ version_number version }
{
    match version {
        Version::Rfc6810 => 0,
        Version::Rfc8210 => 1,
    }
}

// Whether there is a message for records of a kind.
pub fn is_spoken(version: Version, kind: u8) -> bool
    ensures { result ≡ speaks version kind }
{
    match version {
        Version::Rfc6810 => kind <= 1,
        Version::Rfc8210 => kind <= 2,
    }
}

// The length of an End of Data.
pub fn end_length(version: Version) -> usize
    ensures { result ≡ end_length version }
{
    match version {
        Version::Rfc6810 => 12,
        Version::Rfc8210 => 24,
    }
}
