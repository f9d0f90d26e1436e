// Whether a bucket has a tick of a range, and is over a bar.

#![tactic(auto, using(std::proofs::lemmas::Int::ints), unfolding(over::specs::Search::over, over::specs::Search::touches))]

ghost use Rattle.std.specs.Prelude.{◌≡◌};
ghost use Rattle.over.specs.Search.{over, touches};

use rule::Bucket;

// A tick from `first` to `last` is in the bucket.
pub(crate) fn touches(first: u32, last: u32, b: Bucket) -> bool
    ensures { result ≡ touches first last b }
{
    (first.max(b.start) as usize) < (last as usize + 1).min(bucket::end(b))
}

pub fn over(first: u32, last: u32, bar: i32, b: Bucket) -> bool
    ensures { result ≡ over first last bar b }
{
    bar <= b.largest && touches(first, last, b)
}
