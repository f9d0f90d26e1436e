// The worst error of a trace.

#![tactic(auto)]

ghost use Rattle.std.specs.Prelude.{◌≡◌};
ghost use Rattle.rule.specs.Calls.{worst_outcome};
ghost use Rattle.rule.specs.Room.{slots};
ghost use Rattle.rule.specs.Table.{worst};
ghost use Rattle.rooms.specs.Slots.{Filled};

use rule::Refusal;
use sound::sound;
use trace::Trace;

// The greatest error of the buckets in the first slots, 0 where there are none.
pub fn greatest_error(room: &[i64], used: usize) -> u32
    requires { Filled room.now used }
    ensures { result ≡ worst (slots room.now 0 used) }
{
    let mut most: u32 = 0;
    for i in 0..used {
        most = most.max(bucket::error(slots::read(room, i)));
    }
    most
}

// The greatest error of the buckets of a sound trace.
pub fn worst(trace: Trace, room: &[i64]) -> Result<u32, Refusal>
    ensures { result ≡ worst_outcome trace.state room.now }
{
    let s = trace.state;
    if !sound(s, room) {
        return Err(Refusal::Unsound);
    }
    Ok(greatest_error(room, s.used))
}
