// A trace saved: the call, which asks nothing of its caller, and the inner loop that writes one record after the other.

#![tactic(auto)]

ghost use Rattle.std.specs.Prelude.{◌≡◌, ◌++◌, ◌*◌, ◌≤◌, length, drop};
ghost use Rattle.rule.specs.Numbers.{record_width};
ghost use Rattle.rule.specs.Bytes.{saved};
ghost use Rattle.rule.specs.Calls.{save_outcome};
ghost use Rattle.rule.specs.Room.{slots};
ghost use Rattle.rooms.specs.Slots.{Filled};

use rule::{RECORD, Refusal};
use sound::sound;
use trace::Trace;

// The buckets of the first `used` slots become the first records.
fn save_slots(room: &[i64], used: usize, out: &mut [u8])
    requires { Filled room.now used × (record_width * used ≤ length out.old) }
    ensures { out.new ≡ saved (slots room.now 0 used) ++ drop (record_width * used) out.old }
{
    for i in 0..used {
        record::write(&mut *out, i, slots::read(room, i));
    }
}

// The buckets in tick order, a record each.
pub fn save(trace: Trace, room: &[i64], out: &mut [u8]) -> Result<usize, Refusal>
    ensures { (result, out.new) ≡ save_outcome trace.state room.now out.old }
{
    let s = trace.state;
    if !sound(s, room) {
        return Err(Refusal::Unsound);
    }
    if out.len() < RECORD * s.used {
        return Err(Refusal::Short);
    }
    save_slots(room, s.used, &mut *out);
    Ok(s.used)
}
