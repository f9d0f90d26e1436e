// The arithmetic of two readings.

#![tactic(auto, using(std::proofs::lemmas::Int::ints), unfolding(rule::specs::Bucket::distance, rule::specs::Bucket::larger, rule::specs::Bucket::lesser))]

ghost use Rattle.std.specs.Prelude.{◌≡◌};
ghost use Rattle.rule.specs.Bucket.{distance, larger, lesser, middle};

// How far apart two readings are.
pub fn distance(a: i32, b: i32) -> u32
    ensures { result ≡ distance a b }
{
    a.abs_diff(b)
}

// Half the sum of two readings, widened so that no sum wraps, rounded down.
pub fn middle(a: i32, b: i32) -> i32
    ensures { result ≡ middle a b }
{
    let s = a as i64 + b as i64;
    if s < 0 {
        ((s - 1) / 2) as i32
    } else {
        (s / 2) as i32
    }
}

pub fn lesser(a: i32, b: i32) -> i32
    ensures { result ≡ lesser a b }
{
    a.min(b)
}

pub fn larger(a: i32, b: i32) -> i32
    ensures { result ≡ larger a b }
{
    a.max(b)
}
