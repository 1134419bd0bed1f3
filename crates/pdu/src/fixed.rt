// The messages of a fixed length: all but those of records.
ghost use Rattle.std.specs.Prelude.{◌≡◌, [], ◌++◌, ◌+◌, ◌≤◌, ◌<◌, ◌^◌, length};
ghost use Rattle.std.proofs.lemmas.List.Edits.{sets};
ghost use Rattle.number.specs.Number.{four_bytes};
ghost use Rattle.message.specs.Version.{times_bytes, end_length};
ghost use Rattle.message.specs.Message.{pdu, serial_notify, serial_query, cache_response, end_of_data, cache_reset, error_report};
ghost use Rattle.pdu.specs.Write.{session_head};

use crate::head::put_head;
use item::copy::store_four;
use message::version::{Version, end_length};
use serial::timing::Timing;
use serial::{Serial, Session};

// The header of a message that names a session.
fn put_session(version: Version, kind: u8, session: Session, size: usize, out: &mut [u8], i: usize)
    requires { (i + 8 ≤ length out.old) × (size < 4294967296) }
    ensures { out.new ≡ sets out.old i (session_head version kind session size) }
{
    let high = (session.0 / 256) as u8;
    let low = (session.0 % 256) as u8;
    put_head(version, kind, high, low, size, out, i);
}

// The header and the serial of a message that names both.
fn put_serial(
    version: Version,
    kind: u8,
    session: Session,
    size: usize,
    serial: Serial,
    out: &mut [u8],
    i: usize,
)
    requires { (i + 12 ≤ length out.old) × (size < 4294967296) }
    ensures { out.new ≡ sets out.old i (session_head version kind session size ++ four_bytes serial.0) }
{
    put_session(version, kind, session, size, out, i);
    store_four(out, i + 8, serial.0 as usize);
}

// Cache Response.
pub fn put_response(version: Version, session: Session, out: &mut [u8], i: usize)
    requires { i + 8 ≤ length out.old }
    ensures { out.new ≡ sets out.old i (pdu version (cache_response session.0)) }
{
    put_session(version, 3, session, 8, out, i);
}

// Serial Notify.
pub fn put_notify(version: Version, session: Session, serial: Serial, out: &mut [u8], i: usize)
    requires { i + 12 ≤ length out.old }
    ensures { out.new ≡ sets out.old i (pdu version (serial_notify session.0 serial.0)) }
{
    put_serial(version, 0, session, 12, serial, out, i);
}

// Serial Query.
fn put_query(version: Version, session: Session, serial: Serial, out: &mut [u8], i: usize)
    requires { i + 12 ≤ length out.old }
    ensures { out.new ≡ sets out.old i (pdu version (serial_query session.0 serial.0)) }
{
    put_serial(version, 1, session, 12, serial, out, i);
}

// Three numbers of four bytes at i.
fn put_three(a: u32, b: u32, c: u32, out: &mut [u8], i: usize)
    requires { i + 12 ≤ length out.old }
    ensures { out.new ≡ sets out.old i (four_bytes a ++ (four_bytes b ++ four_bytes c)) }
{
    store_four(out, i, a as usize);
    store_four(out, i + 4, b as usize);
    store_four(out, i + 8, c as usize);
}

// The times of an End of Data: RFC 6810 has none.
fn put_times(version: Version, times: Timing, out: &mut [u8], i: usize)
    requires { i + length (times_bytes version times) ≤ length out.old }
    ensures { out.new ≡ sets out.old i (times_bytes version times) }
{
    match version {
        Version::Rfc6810 => {}
        Version::Rfc8210 => {
            put_three(times.refresh, times.retry, times.expire, out, i);
        }
    }
}

// End of Data.
pub fn put_end(
    version: Version,
    session: Session,
    serial: Serial,
    times: Timing,
    out: &mut [u8],
    i: usize,
)
    requires { i + end_length version ≤ length out.old }
    ensures { out.new ≡ sets out.old i (pdu version (end_of_data session.0 serial.0 times)) }
{
    let size = end_length(version);
    put_serial(version, 7, session, size, serial, out, i);
    put_times(version, times, out, i + 12);
}

// Cache Reset.
pub fn put_reset(version: Version, out: &mut [u8], i: usize)
    requires { i + 8 ≤ length out.old }
    ensures { out.new ≡ sets out.old i (pdu version cache_reset) }
{
    put_head(version, 8, 0, 0, 8, out, i);
}

// The Error Report of another session: code 0, the Serial Query enclosed, no text.
pub fn put_report(version: Version, session: Session, asked: Serial, out: &mut [u8], i: usize)
    requires { i + 28 ≤ length out.old }
    ensures { out.new ≡ sets out.old i (pdu version (error_report 0 (pdu version (serial_query session.0 asked.0)) [])) }
{
    put_head(version, 10, 0, 0, 28, out, i);
    store_four(out, i + 8, 12);
    put_query(version, session, asked, out, i + 12);
    store_four(out, i + 24, 0);
}
