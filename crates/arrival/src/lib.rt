// Whether a reading is taken, and where it goes: the refusals of the two readings, in document 01's order. Nothing is written. `next` and `late` ask nothing of a caller; `following` and `placed` go on where soundness is known.

#![tactic(auto)]

ghost use Rattle.std.specs.Prelude.{false, true, ◌≡◌, ℤ};
ghost use Rattle.rule.specs.Calls.{late};
ghost use Rattle.rule.specs.Room.{slots, sound};
ghost use Rattle.rule.specs.Table.{next_tick};
ghost use Rattle.rooms.specs.Slots.{Filled};
ghost use Rattle.arrival.specs.Arrivals.{late_arrival, next_arrival};

use place::{find, held, joins};
use rule::{Refusal, State, TICKS};
use settings::is_late;
use slots::read;
use sound::sound;

// Where a reading goes: its place among the buckets, the runs there are with it, and its tick.
#[derive(Clone, Copy)]
pub struct Arrival {
    pub at: usize,
    pub runs: usize,
    pub tick: u32,
}

// The end of the last bucket, 0 where there is none.
pub(crate) fn next_tick(room: &[i64], used: usize) -> usize
    requires { Filled room.now used }
    ensures { result ≡ next_tick (slots room.now 0 used) }
{
    if used == 0 {
        return 0;
    }
    bucket::end(read(room, used - 1))
}

// The next reading of a trace in order that is known to be sound.
pub fn following(s: State, room: &[i64]) -> Result<Arrival, Refusal>
    requires { (sound s room.now ≡ true) × (late s.settings.kind ≡ false) }
    ensures { result ≡ next_arrival s room.now }
{
    let tick = next_tick(room, s.used);
    if TICKS <= tick {
        return Err(Refusal::Tick);
    }
    Ok(Arrival {
        at: s.used,
        runs: 1,
        tick: tick as u32,
    })
}

// The next reading of a trace in order.
pub fn next(s: State, room: &[i64]) -> Result<Arrival, Refusal>
    ensures { result ≡ next_arrival s room.now }
{
    if !sound(s, room) {
        return Err(Refusal::Unsound);
    }
    let settings = s.settings;
    let kind = settings.kind;
    if is_late(kind) {
        return Err(Refusal::Kind);
    }
    following(s, room)
}

// A reading at its tick of a late trace that is known to be sound. Its value plays no part.
pub fn placed(s: State, room: &[i64], tick: u32) -> Result<Arrival, Refusal>
    requires { (sound s room.now ≡ true) × (late s.settings.kind ≡ true) }
    ensures { (v : ℤ) → result ≡ late_arrival s room.now tick v }
{
    if TICKS <= tick as usize {
        return Err(Refusal::Tick);
    }
    let at = find(room, s.used, tick);
    if held(room, s.used, at, tick) {
        return Err(Refusal::Taken);
    }
    let runs = s.runs + 1 - joins(room, s.used, at, tick);
    let settings = s.settings;
    if settings.gaps < runs {
        return Err(Refusal::Runs);
    }
    Ok(Arrival { at, runs, tick })
}

// A reading at its tick, in any order, of a late trace.
pub fn late(s: State, room: &[i64], tick: u32) -> Result<Arrival, Refusal>
    ensures { (v : ℤ) → result ≡ late_arrival s room.now tick v }
{
    if !sound(s, room) {
        return Err(Refusal::Unsound);
    }
    let settings = s.settings;
    let kind = settings.kind;
    if !is_late(kind) {
        return Err(Refusal::Kind);
    }
    placed(s, room, tick)
}
