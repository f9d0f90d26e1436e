// The calls for other languages that look at a trace. Each hands on to the call of its name and does nothing of its own.

#![tactic(auto)]

ghost use Rattle.std.specs.Prelude.{◌≡◌};
ghost use Rattle.plain.specs.Plain.{lookup_reply, search_reply, worst_reply};

use fields::{Fields, trace_of};
use plain::{Hit, Shown, WorstError};
use shown::{erring, pointing, showing};

#[unsafe(no_mangle)]
pub extern "C" fn ndz_lookup(state: Fields, room: &[i64], tick: u32) -> Shown
    ensures { result ≡ lookup_reply state room.now tick }
{
    let trace = trace_of(state);
    showing(trace.lookup(room, tick))
}

#[unsafe(no_mangle)]
pub extern "C" fn ndz_first_over(
    state: Fields,
    room: &[i64],
    first: u32,
    last: u32,
    bar: i32,
) -> Hit
    ensures { result ≡ search_reply state room.now first last bar }
{
    let trace = trace_of(state);
    pointing(search::first_over(trace, room, first, last, bar))
}

#[unsafe(no_mangle)]
pub extern "C" fn ndz_worst(state: Fields, room: &[i64]) -> WorstError
    ensures { result ≡ worst_reply state room.now }
{
    let trace = trace_of(state);
    erring(worst::worst(trace, room))
}
