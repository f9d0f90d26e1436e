// The place of a tick among the slots in use, and what a reading there touches. Each function asks for slots that are there and hold buckets, as they are in a sound trace.

#![tactic(auto, using(rooms::proofs::Reading::filled))]

ghost use Rattle.std.specs.Prelude.{◌≡◌, ◌&&◌, ◌+◌, ◌-◌, suc, eqb, ltb, ℤ};
ghost use Rattle.rule.specs.Bucket.{end};
ghost use Rattle.rule.specs.Calls.{is_held};
ghost use Rattle.rule.specs.Room.{slot, slots};
ghost use Rattle.rule.specs.Table.{holders, holding, insert, runs, single};
ghost use Rattle.rooms.specs.Slots.{Filled};
ghost use Rattle.rooms.specs.Steps.{Placed, position};

use rule::SLOT;
use slots::read;

// How many buckets start at the tick or before it: the place where a reading of the tick goes.
pub fn find(room: &[i64], used: usize, tick: u32) -> usize
    requires { Filled room.now used }
    ensures { result ≡ position tick (slots room.now 0 used) }
{
    let wanted = tick as i64;
    for i in 0..used {
        if wanted < room[SLOT * i] {
            return i;
        }
    }
    used
}

// The tick lies in the bucket before place `at`, which is the tick's place.
pub fn held(room: &[i64], used: usize, at: usize, tick: u32) -> bool
    requires { Placed room.now used at tick }
    ensures { result ≡ is_held (holding tick (slots room.now 0 used)) }
{
    0 < at && (tick as usize) < bucket::end(read(room, at - 1))
}

// How many buckets a reading of the tick touches, at the tick's place.
pub fn joins(room: &[i64], used: usize, at: usize, tick: u32) -> usize
    requires { Placed room.now used at tick × (holders tick (slots room.now 0 used) ≡ 0) }
    ensures { (v : ℤ) → result + runs (insert (single tick v) (slots room.now 0 used)) ≡ suc (runs (slots room.now 0 used)) }
{
    ends_before(room, at, tick) as usize + starts_after(room, used, at, tick) as usize
}

// The bucket before place `at` ends at the tick.
pub(crate) fn ends_before(room: &[i64], at: usize, tick: u32) -> bool
    requires { Filled room.now at }
    ensures { result ≡ ltb 0 at && eqb (end (slot room.now (at - 1))) tick }
{
    0 < at && bucket::end(read(room, at - 1)) == tick as usize
}

// The bucket at place `at` starts right after the tick.
pub(crate) fn starts_after(room: &[i64], used: usize, at: usize, tick: u32) -> bool
    requires { Filled room.now used }
    ensures { result ≡ ltb at used && eqb (slot room.now at).start (suc tick) }
{
    at < used && read(room, at).start as usize == tick as usize + 1
}
