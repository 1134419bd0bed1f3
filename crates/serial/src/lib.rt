// Serials, sessions and AS numbers: kinds of their own, so that none can be given for another.
#![tactic(auto)]

ghost use Rattle.std.specs.Prelude.{◌≡◌};
ghost use Rattle.serial.specs.Serial.{next_of, distance_of, session_of};

pub mod order;
pub mod timing;

// The serial number of a snapshot or of a delta's target.
#[repr(C)]
#[derive(Clone, Copy, PartialEq, Eq)]
pub struct Serial(pub u32);

// The 16-bit session that a query brings and an answer names.
#[repr(C)]
#[derive(Clone, Copy, PartialEq, Eq)]
pub struct Session(pub u16);

// An AS number.
#[repr(C)]
#[derive(Clone, Copy, PartialEq, Eq)]
pub struct Asn(pub u32);

// The serial after: after 4,294,967,295 comes 0.
pub fn next(s: Serial) -> Serial
    ensures { result ≡ next_of s }
{
    Serial(std::num::wrapping_add_u32(s.0, 1))
}

// How many steps after `asked` the newest serial is, modulo 2^32.
pub fn distance(newest: Serial, asked: Serial) -> u32
    ensures { result ≡ distance_of newest asked }
{
    std::num::wrapping_sub_u32(newest.0, asked.0)
}

// A history's session, modulo 65,536.
pub fn session16(session: u64) -> Session
    ensures { result ≡ session_of session }
{
    Session((session % 65536) as u16)
}
