// The broken lines of the runs, printed bucket by bucket.

#![tactic(auto)]

ghost use Rattle.std.specs.Prelude.{◌+◌, ◌-◌, ◌≤◌, ◌<◌, ◌^◌, [], ◌∷◌, ◌++◌, length};
ghost use Rattle.rule.specs.Room.{slots};
ghost use Rattle.rooms.specs.Slots.{Filled};
ghost use Rattle.output.specs.Output.{Put};
ghost use Rattle.drawing.specs.Picture.{points_of, polylines, printed, runs_of};
ghost use Rattle.curve.specs.Joints.{joint, lines_after};

use drawing::View;
use rule::Bucket;
use scale::{down, end_of, start_of};
use wording::put_text;

// Both ends of a bucket, at its level.
fn put_points(out: &mut [u8], at: usize, v: View, b: Bucket) -> usize
    requires { (0 < v.span) × (at + length (printed (points_of v (b ∷ []))) < 2 ^ 64) }
    ensures { Put out.old at (printed (points_of v (b ∷ []))) result out.new }
{
    let y = down(v, bucket::level(b));
    let numbers = [start_of(v, b), y, end_of(v, b), y];
    put_text(out, at, b"%,% %,% ", &numbers)
}

// The run goes on, or the next one begins.
#[tactic(auto, unfolding(crate::specs::Joints::joint, output::specs::Output::filled, output::specs::Output::sign, output::specs::Output::unused))]
fn put_joint(out: &mut [u8], at: usize, end: usize, start: usize) -> usize
    requires { at + length (joint end start) < 2 ^ 64 }
    ensures { Put out.old at (joint end start) result out.new }
{
    if end == start {
        return at;
    }
    put_text(out, at, b"\"/>\n<polyline points=\"", &[])
}

// A bucket behind one that ends at `end`.
fn put_next(out: &mut [u8], at: usize, v: View, end: usize, b: Bucket) -> usize
    requires { (0 < v.span) × (at + length (joint end b.start ++ printed (points_of v (b ∷ []))) < 2 ^ 64) }
    ensures { Put out.old at (joint end b.start ++ printed (points_of v (b ∷ []))) result out.new }
{
    let next = put_joint(out, at, end, b.start as usize);
    put_points(out, next, v, b)
}

// All that follows the first bucket, which ends at `first`.
fn put_after(out: &mut [u8], at: usize, v: View, room: &[i64], used: usize, first: usize) -> usize
    requires { Filled room.now used × ((1 ≤ used) × ((0 < v.span) × (at + length (lines_after v first (slots room.now 1 (used - 1))) < 2 ^ 64))) }
    ensures { Put out.old at (lines_after v first (slots room.now 1 (used - 1))) result out.new }
{
    let mut next = at;
    let mut end = first;
    for i in 1..used {
        let b = slots::read(room, i);
        next = put_next(&mut *out, next, v, end, b);
        end = bucket::end(b);
    }
    put_text(out, next, b"\"/>\n", &[])
}

// One broken line for each run of the first slots.
pub fn put_lines(out: &mut [u8], at: usize, v: View, room: &[i64], used: usize) -> usize
    requires { Filled room.now used × ((0 < v.span) × (at + length (polylines v (runs_of (slots room.now 0 used))) < 2 ^ 64)) }
    ensures { Put out.old at (polylines v (runs_of (slots room.now 0 used))) result out.new }
{
    if used == 0 {
        return at;
    }
    let first = slots::read(room, 0);
    let begun = put_text(out, at, b"<polyline points=\"", &[]);
    let next = put_points(out, begun, v, first);
    put_after(out, next, v, room, used, bucket::end(first))
}
