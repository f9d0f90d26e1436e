// The calls for other languages that hand on a lent record: the tallied readings and the row. Each hands on to the call of its name and does nothing of its own.

#![tactic(auto)]

ghost use Rattle.std.specs.Prelude.{◌≡◌};
ghost use Rattle.plain.specs.Plain.{late_reply, late_tally, next_reply, next_tally, row_reply};

use fields::{Fields, trace_of};
use plain::{Counted, Reply, replying, telling};
use rule::{Bucket, Tally};

// The two readings, counted in a tally that is lent with them.
#[unsafe(no_mangle)]
pub extern "C" fn ndz_next_tallied(
    state: Fields,
    room: &mut [i64],
    value: i32,
    tally: &mut Tally,
) -> Reply
    ensures { ((result, room.new) ≡ next_reply state room.old value) × (tally.new ≡ next_tally state room.old value tally.old) }
{
    let trace = trace_of(state);
    let a = tally::next(trace, &mut *room, value, &mut *tally);
    replying(state, a)
}

#[unsafe(no_mangle)]
pub extern "C" fn ndz_late_tallied(
    state: Fields,
    room: &mut [i64],
    tick: u32,
    value: i32,
    tally: &mut Tally,
) -> Reply
    ensures { ((result, room.new) ≡ late_reply state room.old tick value) × (tally.new ≡ late_tally state room.old tick value tally.old) }
{
    let trace = trace_of(state);
    let a = tally::late(trace, &mut *room, tick, value, &mut *tally);
    replying(state, a)
}

// The buckets as records, in the first places of the output.
#[unsafe(no_mangle)]
pub extern "C" fn ndz_row(state: Fields, room: &[i64], out: &mut [Bucket]) -> Counted
    ensures { (result, out.new) ≡ row_reply state room.now out.old }
{
    let trace = trace_of(state);
    telling(row::row(trace, room, &mut *out))
}
