// The calls for other languages that open and feed a trace: plain C functions over lent numbers and bytes, the state as plain fields.
// include/ndezulangi.h is the manual of all exported functions. Each hands on to the call of its name and does nothing of its own.

#![tactic(auto)]

ghost use Rattle.std.specs.Prelude.{◌≡◌};
ghost use Rattle.plain.specs.Plain.{late_reply, next_reply, open_reply};

use fields::{Fields, Named, none, opening_of, trace_of};
use plain::{Reply, replying};
use trace::Trace;

#[unsafe(no_mangle)]
pub extern "C" fn ndz_open(named: Named, room: &mut [i64]) -> Reply
    ensures { (result, room.new) ≡ open_reply named room.old }
{
    let opening = opening_of(named);
    replying(none(), Trace::open(opening, &mut *room))
}

#[unsafe(no_mangle)]
pub extern "C" fn ndz_next(state: Fields, room: &mut [i64], value: i32) -> Reply
    ensures { (result, room.new) ≡ next_reply state room.old value }
{
    let trace = trace_of(state);
    replying(state, trace.next(&mut *room, value))
}

#[unsafe(no_mangle)]
pub extern "C" fn ndz_late(state: Fields, room: &mut [i64], tick: u32, value: i32) -> Reply
    ensures { (result, room.new) ≡ late_reply state room.old tick value }
{
    let trace = trace_of(state);
    replying(state, trace.late(&mut *room, tick, value))
}
