// The notice of a serial.
use serial::{Serial, Session};

#[repr(C)]
#[derive(Clone, Copy)]
pub struct Notice {
    pub session: Session,
    pub serial: Serial,
}
