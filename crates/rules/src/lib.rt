// The record rules, each asked by its number and all at once, and where a run begins. No other place of the code knows them.

#![tactic(auto, using(rule::proofs::Signed::equal_bits), unfolding(rule::specs::Rules::broken, rule::specs::Rules::first_false, rule::specs::Rules::follows, rule::specs::Rules::rules, crate::specs::Numbered::meets))]

ghost use Rattle.std.specs.Prelude.{◌≡◌, cond, eqb};
ghost use Rattle.rule.specs.Rules.{broken, follows};
ghost use Rattle.rules.specs.Numbered.{meets};

use rule::{Bucket, Kind, TICKS};

// The rules are numbered from 1 to this.
pub const RULES: usize = 5;

// Where a record may start, the one before it ending at `end`: in order there, late not below it.
pub fn follows(kind: Kind, end: usize, b: Bucket) -> bool
    ensures { result ≡ follows kind «end» b }
{
    match kind {
        Kind::InOrder => b.start as usize == end,
        Kind::Late => end <= b.start as usize,
    }
}

// The record of `b`, after one that ends at `end`, meets the rule of a number.
pub fn meets(rule: usize, kind: Kind, end: usize, b: Bucket) -> bool
    ensures { result ≡ meets rule kind end b }
{
    match rule {
        1 => 1 <= b.count,
        2 => bucket::end(b) <= TICKS,
        3 => b.least <= b.largest,
        4 => b.count != 1 || b.least == b.largest,
        5 => follows(kind, end, b),
        _ => true,
    }
}

// The number of the first rule that the record of `b` breaks, after one that ends at `end`; 0 where it meets all.
// Each rule is asked by a number that the compiler knows: asked by a loop, a reading takes 8 percent longer.
pub fn first_broken(kind: Kind, end: usize, b: Bucket) -> usize
    ensures { result ≡ broken kind end b }
{
    if !meets(1, kind, end, b) {
        1
    } else if !meets(2, kind, end, b) {
        2
    } else if !meets(3, kind, end, b) {
        3
    } else if !meets(4, kind, end, b) {
        4
    } else if !meets(RULES, kind, end, b) {
        RULES
    } else {
        0
    }
}

// 1 where the bucket begins a run, the one before it ending at `end`.
pub fn starts_run(end: usize, b: Bucket) -> usize
    ensures { result ≡ cond (eqb «end» b.start) 0 1 }
{
    (end != b.start as usize) as usize
}
