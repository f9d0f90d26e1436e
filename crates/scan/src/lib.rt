// The cheapest neighbours met in one pass over slots, which asks for slots that are there and hold buckets, as they are in a sound trace, and for ticks in edition 2 alone.

#![tactic(auto, unfolding(rule::specs::Table::ahead, rule::specs::Table::choice, rule::specs::Table::weight, crate::specs::Best::better))]

ghost use Rattle.std.specs.Prelude.{◌≡◌, ◌+◌, ◌-◌, ◌≤◌, cond};
ghost use Rattle.rule.specs.Room.{slots};
ghost use Rattle.rule.specs.Bucket.{neighbours, spread, union};
ghost use Rattle.rule.specs.Numbers.{word};
ghost use Rattle.rule.specs.Table.{ahead, cheapest, choice, weight};
ghost use Rattle.rooms.specs.Slots.{Filled};
ghost use Rattle.scan.specs.Best.{Light, better};

use rule::{Bucket, WORD};
use slots::read;

// Above every spread.
pub const ABOVE: u64 = WORD as u64;

// The cheapest neighbours met so far: the place of the first of the two, the spread of their union, above every spread where none were met, and what decides among equal spreads.
// None met is a cost and no `Option`: one comparison of costs covers both.
#[derive(Clone, Copy)]
pub struct Best {
    pub place: usize,
    pub cost: u64,
    pub ticks: u64,
}

// None met.
pub const UNMET: Best = Best {
    place: 0,
    cost: ABOVE,
    ticks: 0,
};

// What was met, and the neighbours among the slots from `from` up to `to`, whose places are `shift` more: one pass, the first of equals kept.
// The edition is asked once: in edition 1 the compiler then knows that ticks are 0 and compares spreads alone.
pub fn pass(edition: usize, room: &[i64], from: usize, to: usize, shift: usize, met: Best) -> Best
    requires { Filled room.now to × ((from ≤ to) × ((shift ≤ 1) × Light edition met)) }
    ensures { result ≡ better met (cheapest edition (from + shift) (slots room.now from (to - from))) }
{
    if edition == 2 {
        over::<2>(room, from, to, shift, met)
    } else {
        over::<1>(room, from, to, shift, Best { ticks: 0, ..met })
    }
}

// The pass itself.
pub(crate) fn over<const EDITION: usize>(
    room: &[i64],
    from: usize,
    to: usize,
    shift: usize,
    met: Best,
) -> Best
    requires { Filled room.now to × ((from ≤ to) × (shift ≤ 1)) }
    ensures { result ≡ better met (cheapest EDITION (from + shift) (slots room.now from (to - from))) }
{
    let mut best = met;
    for i in from + 1..to {
        best = better(
            EDITION,
            best,
            i - 1 + shift,
            read(room, i - 1),
            read(room, i),
        );
    }
    best
}

// What was met, or two neighbours that stand at a place where they are cheaper. The edition is no const parameter: `inserted` knows it at run time alone.
pub fn better(edition: usize, met: Best, place: usize, a: Bucket, b: Bucket) -> Best
    ensures { result ≡ better met (choice edition place a b) }
{
    let cost = price(a, b);
    if met.cost < cost {
        return met;
    }
    if !bucket::neighbours(a, b) {
        return met;
    }
    let ticks = weight(edition, a, b);
    if ahead(met.cost, met.ticks, cost, ticks) {
        return met;
    }
    Best { place, cost, ticks }
}

// The spread of the union of two neighbours; above every spread where they are none.
pub(crate) fn price(a: Bucket, b: Bucket) -> u64
    ensures { result ≡ cond (neighbours a b) (spread (union a b)) word }
{
    if bucket::neighbours(a, b) {
        bucket::union_spread(a, b) as u64
    } else {
        ABOVE
    }
}

// What decides among equal spreads: in edition 2 the ticks of the union, in edition 1 nothing.
pub(crate) fn weight(edition: usize, a: Bucket, b: Bucket) -> u64
    ensures { result ≡ weight edition (union a b) }
{
    if edition == 2 {
        a.count as u64 + b.count as u64
    } else {
        0
    }
}

// A smaller spread, or an equal one and no greater weight.
pub(crate) fn ahead(s: u64, w: u64, r: u64, x: u64) -> bool
    ensures { result ≡ ahead s w r x }
{
    s < r || (s == r && w <= x)
}
