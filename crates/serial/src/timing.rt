// The timing values of an answer, in seconds.
ghost use Rattle.std.specs.Prelude.{◌≡◌, ◌<◌, ◌≤◌, max};
ghost use Rattle.serial.specs.Timing.{expire_of, timing_of};

#[repr(C)]
#[derive(Clone, Copy)]
pub struct Timing {
    pub refresh: u32,
    pub retry: u32,
    pub expire: u32,
}

const REFRESH_LOW: u32 = 1;

const REFRESH_HIGH: u32 = 86400;

const RETRY_LOW: u32 = 1;

const RETRY_HIGH: u32 = 7200;

const EXPIRE_LOW: u32 = 600;

const EXPIRE_HIGH: u32 = 172800;

// `expire`, or one more than the larger of the two others if it is not larger than both.
fn above(refresh: u32, retry: u32, expire: u32) -> u32
    requires { max refresh retry < 4294967295 }
    ensures { result ≡ expire_of refresh retry expire }
{
    let larger = refresh.max(retry);
    if expire <= larger {
        return larger + 1;
    }
    expire
}

// Each value within its own bounds, and expire larger than the two others.
pub fn clamp(t: Timing) -> Timing
    ensures { result ≡ timing_of t }
{
    let refresh = t.refresh.clamp(REFRESH_LOW, REFRESH_HIGH);
    let retry = t.retry.clamp(RETRY_LOW, RETRY_HIGH);
    Timing {
        refresh,
        retry,
        expire: above(refresh, retry, t.expire.clamp(EXPIRE_LOW, EXPIRE_HIGH)),
    }
}
