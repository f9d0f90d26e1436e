// The cheapest neighbours of the table in the room. Each function asks for slots that are there and hold buckets, as they are in a sound trace.

#![tactic(auto, using(rooms::proofs::Fitting::fitted_slots, scan::proofs::Scanning::its_cost, scan::proofs::Scanning::its_place))]

ghost use Rattle.std.specs.Prelude.{◌≡◌};
ghost use Rattle.rule.specs.Room.{slots};
ghost use Rattle.rule.specs.Table.{cheapest};
ghost use Rattle.rooms.specs.Slots.{Filled, cost_of, place_of};
ghost use Rattle.scan.specs.Best.{better, unmet};

use scan::{Best, UNMET, pass};

// The place of the cheapest neighbours among the first `used` slots.
pub fn cheapest(edition: usize, room: &[i64], used: usize) -> usize
    requires { Filled room.now used }
    ensures { result ≡ place_of (cheapest edition 0 (slots room.now 0 used)) }
{
    scanned(edition, room, used).place
}

// What the cheapest neighbours among the first `used` slots cost, the same by every edition; above every spread where there are none.
pub fn least_cost(room: &[i64], used: usize) -> u64
    requires { Filled room.now used }
    ensures { result ≡ cost_of (cheapest 1 0 (slots room.now 0 used)) }
{
    scanned(1, room, used).cost
}

// The cheapest neighbours among the first `used` slots.
pub(crate) fn scanned(edition: usize, room: &[i64], used: usize) -> Best
    requires { Filled room.now used }
    ensures { result ≡ better unmet (cheapest edition 0 (slots room.now 0 used)) }
{
    pass(edition, room, 0, used, 0, UNMET)
}
