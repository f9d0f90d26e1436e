// The calls for other languages that take many readings. Each hands on to the call of its name and does nothing of its own.

#![tactic(auto)]

ghost use Rattle.std.specs.Prelude.{◌≡◌};
ghost use Rattle.feeding.specs.Feeding.{late_many_reply, next_many_reply};

use feeding::{Fed, feeding};
use fields::{Fields, trace_of};

// The next readings of a trace in order, until one is refused.
#[unsafe(no_mangle)]
pub extern "C" fn ndz_next_many(state: Fields, room: &mut [i64], values: &[i32]) -> Fed
    ensures { (result, room.new) ≡ next_many_reply state room.old values.now }
{
    let trace = trace_of(state);
    feeding(state, many::next(trace, &mut *room, values))
}

// Readings of a late trace, each at its tick, as many as there are of both, until one is refused.
#[unsafe(no_mangle)]
pub extern "C" fn ndz_late_many(
    state: Fields,
    room: &mut [i64],
    ticks: &[u32],
    values: &[i32],
) -> Fed
    ensures { (result, room.new) ≡ late_many_reply state room.old ticks.now values.now }
{
    let trace = trace_of(state);
    feeding(state, many_late::late(trace, &mut *room, ticks, values))
}
