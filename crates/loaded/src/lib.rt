// A trace loaded: the call, which asks nothing of its caller, and the inner loop that writes one slot after the other.

#![tactic(auto)]

ghost use Rattle.std.specs.Prelude.{◌≡◌, ◌++◌, ◌*◌, ◌≤◌, length, drop};
ghost use Rattle.rule.specs.Numbers.{record_width, slot_width};
ghost use Rattle.rule.specs.Bytes.{records};
ghost use Rattle.rule.specs.Calls.{loaded};
ghost use Rattle.rule.specs.Room.{flat};
ghost use Rattle.trace.specs.Answers.{answered};

use admission::{Admitted, admit};
use faults::inspect;
use moves::clear;
use rule::{Opening, RECORD, Refusal, SLOT, State};
use trace::Trace;

// The first `count` records become the buckets of the first slots.
fn load_slots(file: &[u8], count: usize, room: &mut [i64])
    requires { (record_width * count ≤ length file.now) × (slot_width * count ≤ length room.old) }
    ensures { room.new ≡ flat (records file.now 0 count) ++ drop (slot_width * count) room.old }
{
    for i in 0..count {
        slots::write(&mut *room, i, record::read(file, i));
    }
}

// The trace of a saved file, in the needed slots of the room.
pub fn load(named: Opening, file: &[u8], room: &mut [i64]) -> Result<Trace, Refusal>
    ensures { (result, room.new) ≡ answered (loaded named file.now room.old) }
{
    let Admitted { settings, slots } = admit(named, &*room)?;
    let c = inspect(settings, file)?;
    let used = file.len() / RECORD;
    load_slots(file, used, &mut *room);
    clear(&mut *room, SLOT * used, SLOT * slots);
    Ok(Trace {
        state: State {
            settings,
            used,
            runs: c.runs,
            readings: c.readings,
        },
    })
}
