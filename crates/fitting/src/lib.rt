// A line obeyed by a trace that is known to be sound: a late reading is taken without a check.

#![tactic(auto)]

ghost use Rattle.std.specs.Prelude.{◌≡◌};
ghost use Rattle.fitting.specs.Fitting.{Fit, fit_at, line_by};

use lines::line_ended;
use listing::{Feeding, Stage};
use notation::Line;
use settings::is_late;
use sound::sound;
use waiting::begun;

// Whether the byte ends a line and the trace is sound, which is asked unless it is known.
pub fn fits(known: bool, f: Feeding, b: u8, room: &[i64]) -> bool
    ensures { result ≡ fit_at known f.last b room.now }
{
    if b != b'\n' {
        return false;
    }
    if known {
        return true;
    }
    let last = f.last;
    let Ok(t) = last else {
        return false;
    };
    sound(t.state, room)
}

// The line begun has ended.
pub fn line_taken(f: Feeding, room: &mut [i64], line: &[u8]) -> Feeding
    requires { Fit f.last room.old }
    ensures { (result, room.new) ≡ line_by f.last f room.old line.now }
{
    let last = f.last;
    let Ok(t) = last else {
        return f;
    };
    let s = t.state;
    let settings = s.settings;
    let kind = settings.kind;
    if !is_late(kind) {
        return line_ended(f, t, &mut *room, line);
    }
    let l = begun(f.filled, line);
    let Some(Line::Pair(tick, v)) = l else {
        return line_ended(f, t, &mut *room, line);
    };
    let arrival = arrival::placed(s, &*room, tick);
    let answer = t.take(arrival, &mut *room, v);
    Feeding {
        last: answer,
        stage: Stage::Readings,
        lines: f.lines.wrapping_add(1),
        filled: 0,
    }
}
