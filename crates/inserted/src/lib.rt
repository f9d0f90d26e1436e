// The cheapest neighbours of the table in the room with one bucket more, which is not in the room yet. Each function asks for slots that are there and hold buckets, as they are in a sound trace.

#![tactic(auto, using(rooms::proofs::Reading::filled))]

ghost use Rattle.std.specs.Prelude.{◌≡◌, [], ◌∷◌, ◌++◌, ◌≤◌};
ghost use Rattle.rule.specs.Room.{numbers, slots};
ghost use Rattle.rule.specs.Table.{cheapest};
ghost use Rattle.rooms.specs.Slots.{Filled, place_of, put_at};
ghost use Rattle.scan.specs.Best.{better, unmet};

use rule::Bucket;
use scan::{Best, UNMET, better, pass};
use slots::read;

// The place of the cheapest neighbours among the first `used` slots with the bucket put at place `at`.
pub fn cheapest_with(edition: usize, room: &[i64], used: usize, at: usize, b: Bucket) -> usize
    requires { Filled room.now used × ((at ≤ used) × Filled (numbers b) 1) }
    ensures { result ≡ place_of (cheapest edition 0 (put_at at b (slots room.now 0 used))) }
{
    let up_to_it = ending(edition, room, at, b);
    if at == used {
        return up_to_it.place;
    }
    let with_next = better(edition, up_to_it, at, b, read(room, at));
    pass(edition, room, at, used, 1, with_next).place
}

// The cheapest neighbours among the first `at` slots with the bucket behind them.
pub(crate) fn ending(edition: usize, room: &[i64], at: usize, b: Bucket) -> Best
    requires { Filled room.now at }
    ensures { result ≡ better unmet (cheapest edition 0 (slots room.now 0 at ++ (b ∷ []))) }
{
    if at == 0 {
        return UNMET;
    }
    let slots = pass(edition, room, 0, at, 0, UNMET);
    better(edition, slots, at - 1, read(room, at - 1), b)
}
