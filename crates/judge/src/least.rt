// All messages of an answer in message order, batch by batch: the least offset of one at fault.
ghost use Rattle.std.specs.Prelude.{◌≡◌, length};
ghost use Rattle.payload.specs.Payload.{items};
ghost use Rattle.judge.specs.Walk.{least_fault};
ghost use Rattle.judge.specs.State.{ordered, Charted};

use crate::check::{Check, check_batch};
use batch::map::Map;
use batch::next::next;

// `stop` if there is none.
pub(crate) fn least_fault(
    snapshot: &[u8],
    s: &[u8],
    stop: usize,
    map: &Map,
    buf: &mut [usize; 6000],
) -> usize
    requires { Charted snapshot.now s.now stop map.now buf.old }
    ensures { (result ≡ least_fault (items snapshot.now) s.now 0 stop (ordered s.now stop)) × (length buf.new ≡ 6000) }
{
    let mut c = Check {
        last: 0,
        field: 0,
        least: stop,
    };
    loop {
        let batch = next(s, stop, c.last, map, buf);
        c = check_batch(snapshot, s, &buf[..batch.n], c);
        if batch.over {
            return c.least;
        }
    }
}
