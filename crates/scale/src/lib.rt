// What a picture shows of the buckets in the first slots, and where a tick and a level stand in it.

#![tactic(auto)]

ghost use Rattle.std.specs.Prelude.{◌≡◌, ◌<◌, ◌^◌, pos};
ghost use Rattle.rule.specs.Room.{slots};
ghost use Rattle.rule.specs.Table.{Ordered};
ghost use Rattle.rooms.specs.Slots.{Filled};
ghost use Rattle.drawing.specs.Picture.{across, down, end_of, start_of, view_of};

use drawing::View;
use readings::{distance, larger, lesser};
use rule::Bucket;

// The levels of all buckets are looked at once.
pub fn view(room: &[i64], used: usize) -> View
    requires { Filled room.now used × Ordered 0 (slots room.now 0 used) }
    ensures { result ≡ view_of (slots room.now 0 used) }
{
    if used == 0 {
        return View {
            first: 0,
            span: 1,
            top: 0,
            low: 0,
        };
    }
    let first = slots::read(room, 0);
    let last = slots::read(room, used - 1);
    let mut top = bucket::level(first);
    let mut low = top;
    for i in 1..used {
        let z = bucket::level(slots::read(room, i));
        top = larger(top, z);
        low = lesser(low, z);
    }
    View {
        first: first.start as usize,
        span: bucket::end(last) - first.start as usize,
        top,
        low,
    }
}

// Where a tick stands.
#[tactic(auto, unfolding(drawing::specs::Picture::across))]
fn across(v: View, tick: usize) -> usize
    requires { (0 < v.span) × (tick < 2 ^ 40) }
    ensures { result ≡ across v tick }
{
    100 + tick.saturating_sub(v.first) * 9800 / v.span
}

// Where a bucket starts.
#[tactic(auto, using(crate::proofs::Viewing::across_small))]
pub fn start_of(v: View, b: Bucket) -> i64
    requires { 0 < v.span }
    ensures { result ≡ pos (start_of v b) }
{
    across(v, b.start as usize) as i64
}

// Where a bucket ends, one further than it starts or more.
#[tactic(auto, using(crate::proofs::Viewing::across_small))]
pub fn end_of(v: View, b: Bucket) -> i64
    requires { 0 < v.span }
    ensures { result ≡ pos (end_of v b) }
{
    let start = across(v, b.start as usize);
    across(v, bucket::end(b)).max(start + 1) as i64
}

// Where a level stands.
#[tactic(auto, unfolding(drawing::specs::Picture::down))]
pub fn down(v: View, z: i32) -> i64
    ensures { result ≡ pos (down v z) }
{
    let height = distance(v.top, v.low) as usize;
    if height == 0 {
        return 2160;
    }
    (260 + distance(v.top, z) as usize * 3800 / height) as i64
}
