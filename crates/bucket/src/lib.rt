// The arithmetic of one bucket, and of two neighbours.

#![tactic(auto)]

ghost use Rattle.std.specs.Prelude.{◌≡◌, ◌+◌, ◌<◌, ◌^◌};
ghost use Rattle.rule.specs.Bucket.{end, error, level, neighbours, spread, union};

use readings::{distance, larger, lesser, middle};
use rule::Bucket;

pub fn end(b: Bucket) -> usize
    ensures { result ≡ end b }
{
    b.start as usize + b.count as usize
}

pub fn spread(b: Bucket) -> u32
    ensures { result ≡ spread b }
{
    distance(b.largest, b.least)
}

pub fn level(b: Bucket) -> i32
    ensures { result ≡ level b }
{
    middle(b.least, b.largest)
}

pub fn error(b: Bucket) -> u32
    ensures { result ≡ error b }
{
    let l = level(b);
    distance(b.largest, l).max(distance(l, b.least))
}

// The bucket of the ticks of two neighbours.
pub fn union(b: Bucket, next: Bucket) -> Bucket
    requires { b.count + next.count < 2 ^ 32 }
    ensures { result ≡ union b next }
{
    Bucket {
        start: b.start,
        count: b.count + next.count,
        least: lesser(b.least, next.least),
        largest: larger(b.largest, next.largest),
    }
}

// The spread of the union, which is known before the union is made.
pub fn union_spread(b: Bucket, next: Bucket) -> u32
    ensures { result ≡ spread (union b next) }
{
    distance(larger(b.largest, next.largest), lesser(b.least, next.least))
}

pub fn neighbours(b: Bucket, next: Bucket) -> bool
    ensures { result ≡ neighbours b next }
{
    end(b) == next.start as usize
}
