// What the judge of messages hands back.
ghost use Rattle.std.specs.Prelude.{◌≡◌};
ghost use Rattle.host.specs.Judged.{flat_judged};

use crate::answer::{Answer, refused_as, wrote_as};
use delta::refusal::Refusal;
use judge::judge::Accepted;
use serial::Session;
use serial::timing::Timing;

#[repr(C)]
#[derive(Clone, Copy)]
pub struct Judged {
    pub answer: Answer,
    pub session: Session,
    pub timing: Timing,
}

pub fn judged_as(j: Result<Accepted, Refusal>) -> Judged
    ensures { result ≡ flat_judged j }
{
    match j {
        Ok(a) => Judged {
            answer: wrote_as(1, a.serial, a.counts),
            session: a.session,
            timing: a.times,
        },
        Err(r) => Judged {
            answer: refused_as(r),
            session: Session(0),
            timing: Timing {
                refresh: 0,
                retry: 0,
                expire: 0,
            },
        },
    }
}
