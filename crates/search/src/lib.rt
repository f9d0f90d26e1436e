// Where the pin first goes over: the first bucket of a range whose largest reading is at or above a bar.

#![tactic(auto)]

ghost use Rattle.std.specs.Prelude.{◌≡◌};
ghost use Rattle.over.specs.Search.{first_over, search_outcome, sought};
ghost use Rattle.rule.specs.Room.{slots};
ghost use Rattle.search.specs.Reading.{Readable};

use over::Sought;
use rule::{Refusal, TICKS};
use slots::read;
use sound::sound;
use touches::over;
use trace::Trace;

// One pass over the slots in use, left at the first bucket that is over. Of the slots it knows only those that no hit stands before.
pub(crate) fn first_hit(
    room: &[i64],
    used: usize,
    first: u32,
    last: u32,
    bar: i32,
) -> Option<Sought>
    requires { Readable first last bar room.now used }
    ensures { Ok result ≡ sought (first_over first last bar 0 (slots room.now 0 used)) }
{
    for i in 0..used {
        let b = read(room, i);
        if over(first, last, bar, b) {
            return Some(Sought {
                index: i,
                start: b.start,
            });
        }
    }
    None
}

// The first bucket that holds a tick from `first` to `last` and whose largest reading is at or above the bar.
pub fn first_over(
    trace: Trace,
    room: &[i64],
    first: u32,
    last: u32,
    bar: i32,
) -> Result<Option<Sought>, Refusal>
    ensures { result ≡ search_outcome trace.state room.now first last bar }
{
    let s = trace.state;
    if !sound(s, room) {
        return Err(Refusal::Unsound);
    }
    if TICKS <= first as usize {
        return Err(Refusal::Tick);
    }
    if TICKS <= last as usize {
        return Err(Refusal::Tick);
    }
    Ok(first_hit(room, s.used, first, last, bar))
}
