// Two neighbours become their union, and slots before them move up, as a bucket comes in before them. Each number is stored once.
// It asks for slots that are there and hold buckets, as they are in a sound trace.

#![tactic(auto)]

ghost use Rattle.std.specs.Prelude.{◌≡◌, ◌<◌};
ghost use Rattle.rule.specs.Room.{laid, slots};
ghost use Rattle.rule.specs.Table.{merge_at};
ghost use Rattle.rooms.specs.Slots.{Joining, put_at};

use moves::up;
use rule::{Bucket, SLOT};
use slots::{read, write};

// Two behind the new bucket: the slots between its place and them move up.
pub fn merge_after(room: &mut [i64], used: usize, at: usize, b: Bucket, i: usize)
    requires { Joining room.old used at b × ((at < i) × (i < used)) }
    ensures { room.new ≡ laid used (merge_at i (put_at at b (slots room.old 0 used))) room.old }
{
    let left = read(&*room, i - 1);
    let right = read(&*room, i);
    let from = SLOT * at;
    let to = SLOT * i;
    up(&mut room[from..to], b);
    write(&mut *room, i, bucket::union(left, right));
}
