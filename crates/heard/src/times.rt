// The times of an End of Data.
ghost use Rattle.std.specs.Prelude.{◌≡◌, drop};
ghost use Rattle.message.specs.Version.{times_in};
ghost use Rattle.heard.specs.Step.{Timed};

use message::version::Version;
use number::word_at;
use serial::timing::Timing;

// The times that stand at `at`, as a version has them: zeros where it has none.
pub(crate) fn times_at(version: Version, s: &[u8], at: usize) -> Timing
    requires { Timed version s.now at }
    ensures { result ≡ times_in version (drop at s.now) }
{
    match version {
        Version::Rfc6810 => Timing {
            refresh: 0,
            retry: 0,
            expire: 0,
        },
        Version::Rfc8210 => {
            let first = word_at(s, at);
            let last = word_at(s, at + 4);
            Timing {
                refresh: (first / 4294967296) as u32,
                retry: (first % 4294967296) as u32,
                expire: (last % 4294967296) as u32,
            }
        }
    }
}
